// Whole numbers with sign, and as the machine holds them: definitions and laws, and the absolute value.
#![tactic(auto)]

ghost use Rattle.std.specs.Prelude.{◌≡◌, nat_abs};

// The absolute value. That of -2^63 is no i64.
pub fn absolute(z: i64) -> u64
    ensures { result ≡ nat_abs z }
{
    z.unsigned_abs()
}
