// Seconds of the day, and times of day: what the UTC time of day is made of.
#![tactic(auto)]

ghost use Rattle.std.specs.Prelude.{◌≡◌};
ghost use Rattle.integers.specs.Whole.{modulo};
ghost use Rattle.day.specs.Day.{time_at};

// A time of day.
#[derive(Clone, Copy, Debug, PartialEq, Eq)]
pub struct TimeOfDay {
    pub hour: u32,
    pub minute: u32,
    pub second: u32,
}

// A time in seconds, modulo a day: a time before zero gives a second from 0 to 86,399 too.
pub fn modulo_day(t: i64) -> u32
    ensures { result ≡ modulo t 86400 }
{
    t.rem_euclid(86400) as u32
}

// A second of the day as hour, minute and second.
#[tactic(auto, unfolding(crate::specs::Day::time_at))]
pub fn time_at(s: u32) -> TimeOfDay
    ensures { result ≡ time_at s }
{
    TimeOfDay {
        hour: s / 3600,
        minute: s / 60 % 60,
        second: s % 60,
    }
}
