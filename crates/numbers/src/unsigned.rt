// Two's complement: a signed value as a number of some width.
ghost use Rattle.std.specs.Prelude.{◌≡◌, ◌≤◌, ◌<◌};
ghost use Rattle.layout.specs.Field.{unsigned};

// The number of `width` bits that reads as v, or 2^width where v is not one of `width` bits.
pub(crate) fn unsigned_of(v: i32, width: usize) -> u32
    requires { (0 < width) × (width ≤ 32) }
    ensures { result ≡ unsigned width v }
{
    let half = 1u32 << (width - 1);
    let size = v.unsigned_abs();
    if v < 0 && size <= half {
        half - size + half
    } else if v >= 0 && size < half {
        size
    } else {
        half + half
    }
}
