// The word check. It gives the syndrome: the failures of the six equations, by the parity table as masks.
ghost use Rattle.std.specs.Prelude.{◌≡◌, ℕ, ◌<◌, get_or};
ghost use Rattle.bits.specs.Bits.{unpack};
ghost use Rattle.parity.specs.internal.Masks.{mask_of};
ghost use Rattle.parity.specs.Word.{syndrome};

// The lines of the parity table as masks of a packed window: P highest, then Q, then bits 1 to 30.
// The exclusive-or of a mask's bits is 0 where the equation holds. Each source bit brings Q in once,
// so Q is in a mask where its line has Q and an even number of source bits, or P and an odd number.
const MASKS: [u32; 6] = [
    0xbb1f34a0, 0x5d8f9a50, 0xaec7cd08, 0x5763e684, 0x2bb1f342, 0xcb7a89c1,
];

// The masks with their rule: each is that of its line.
fn mask_table() -> [u32; 6]
    ensures { (k : ℕ) → k < 6 → get_or result k 0 ≡ mask_of k }
{
    MASKS
}

// The syndrome of a packed window: a six-bit number whose digits, the highest first, are the failures of equations 25 to 30. The word
// passes where it is 0.
pub fn syndrome_of(window: u32) -> u32
    ensures number { result ≡ syndrome (unpack 32 window) }
    ensures bound { result < 64 }
{
    let masks = mask_table();
    let mut syndrome = 0;
    for mask in masks.iter() {
        syndrome = syndrome * 2 + (window & *mask).count_ones() % 2;
    }
    syndrome
}
