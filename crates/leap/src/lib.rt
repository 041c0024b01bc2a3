// The leap moment that WNLSF and DN of a UTC page give, as seen from a full week.
#![tactic(auto)]

ghost use Rattle.std.specs.Prelude.{◌≡◌};
ghost use Rattle.leap.specs.Leap.{week_difference, leap_moment};

// WNLSF less the week's low eight bits, modulo 256, read as -128 to 127.
pub fn week_difference(wnlsf: u32, week: u32) -> i64
    ensures { result ≡ week_difference wnlsf week }
{
    let leap = (wnlsf % 256) as u8;
    let low = (week % 256) as u8;
    i64::from(leap.wrapping_sub(low).cast_signed())
}

// The leap moment, in seconds from the start of week 0. It may lie before it.
pub fn leap_moment(wnlsf: u32, dn: u32, week: u32) -> i64
    ensures { result ≡ leap_moment wnlsf dn week }
{
    let leap_week = i64::from(week) + week_difference(wnlsf, week);
    leap_week * 604800 + i64::from(dn) * 86400
}
