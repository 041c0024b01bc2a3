// Numbers that a text writes in decimal digits.
ghost use Rattle.std.specs.Prelude.{◌≡◌, [], ◌∷◌};
ghost use Rattle.digits.specs.Numbers as Numbers;
ghost use Rattle.digits.specs.internal.Digits.{continued, with_sign};

// The number that digits write, where the digits before the last write n. None where the last byte is no digit or the number is not below 2^64.
#[tactic(auto, using(crate::proofs::laws::Numbers::last_digit))]
fn with_digit(n: u64, byte: u8) -> Option<u64>
    ensures { result ≡ continued n (byte ∷ []) }
{
    if !byte.is_ascii_digit() {
        return None;
    }
    n.checked_mul(10)?.checked_add(u64::from(byte - b'0'))
}

// The number that a text writes. None where it is empty, has a byte that is no digit, or writes 2^64 or more.
pub fn natural(text: &[u8]) -> Option<u64>
    ensures { result ≡ Numbers.natural text.now }
{
    if text.is_empty() {
        return None;
    }
    let mut value = 0;
    for byte in text {
        value = with_digit(value, *byte)?;
    }
    Some(value)
}

// A number with its sign, where it is below 2^63.
fn signed(n: Option<u64>, minus: bool) -> Option<i64>
    ensures { result ≡ with_sign minus n }
{
    let size = i64::try_from(n?).ok()?;
    Some(if minus { -size } else { size })
}

// The number that a text writes, with or without a minus before the digits. None where there is no such number, or it is not below 2^63 in
// size.
pub fn whole(text: &[u8]) -> Option<i64>
    ensures { result ≡ Numbers.whole text.now }
{
    match text.strip_prefix(b"-") {
        Some(digits) => signed(natural(digits), true),
        None => signed(natural(text), false),
    }
}
