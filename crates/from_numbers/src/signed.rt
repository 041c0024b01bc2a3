// Two's complement: a number of some width as a signed value. The library has it for whole words alone.
ghost use Rattle.std.specs.Prelude.{◌≡◌, ◌≤◌, ◌<◌};
ghost use Rattle.layout.specs.Field.{signed};

// The number n of `width` bits, read in two's complement; -1 where n is past the width.
pub(crate) fn signed_of(n: u32, width: usize) -> i32
    requires { (0 < width) × (width ≤ 32) }
    ensures { result ≡ signed width n }
{
    let half = 1u32 << (width - 1);
    if n < half {
        n as i32
    } else {
        -1 - (half - 1 + half).saturating_sub(n) as i32
    }
}
