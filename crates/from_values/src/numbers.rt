// Whole numbers of 64 bits as a struct's fields hold them, 0 where they do not. Two functions of one line: a generic one would have to name both
// definitions through a bound.
ghost use Rattle.std.specs.Prelude.{◌≡◌, ◌<◌};
ghost use Rattle.from_values.specs.FromValues.{natural_at, whole_at};

// Value i of a list as an unsigned field holds it.
pub(crate) fn natural_at(v: &[i64; 25], i: usize) -> u32
    requires { i < 25 }
    ensures { result ≡ natural_at v.now i }
{
    u32::try_from(v[i]).unwrap_or(0)
}

// Value i of a list as a signed field holds it.
pub(crate) fn whole_at(v: &[i64; 25], i: usize) -> i32
    requires { i < 25 }
    ensures { result ≡ whole_at v.now i }
{
    i32::try_from(v[i]).unwrap_or(0)
}
