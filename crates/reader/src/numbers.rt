// The numbers that stand in the source bits of a block, which are counted from 0 through its ten words.
// The log and the place stay apart: a view of the block would test its room again, which the check has done, and the bits need no room.
ghost use Rattle.std.specs.Prelude.{◌≡◌, ℕ, ◌+◌, ◌≤◌, ◌<◌, get_or};
ghost use Rattle.layout.specs.internal.Table.{numbers_at};
ghost use Rattle.bits.specs.Bits.{bits_at, pack};
ghost use Rattle.layout.specs.Table.{offset};
ghost use Rattle.block.specs.Block.{source};

use record::MOST_FIELDS;

// Source bit i of the block at p: the received bit exclusive-or the last bit of the word before.
fn source_bit(log: &[u8], p: usize, i: usize) -> u32
    requires { i < 240 }
    ensures { (result ≡ get_or (source (bits_at log.now p)) i 0) × (result < 2) }
{
    let word = 30 * (i / 24);
    (parity::bit_at(log, p, word + 2 + i % 24) + parity::bit_at(log, p, word + 1)) % 2
}

// The number in the `width` source bits from index `at` on, the first highest.
pub(crate) fn number_at(log: &[u8], p: usize, at: usize, width: usize) -> u32
    requires { (at + width ≤ 240) × (width ≤ 32) }
    ensures { result ≡ pack width (bits_at (source (bits_at log.now p)) at) }
{
    let mut n = 0;
    for i in 0..width {
        n = n * 2 + source_bit(log, p, at + i);
    }
    n
}

// The numbers that stand one after the other in these widths from index `at` on.
pub(crate) fn numbers_at(
    log: &[u8],
    p: usize,
    at: usize,
    widths: [usize; MOST_FIELDS],
) -> [u32; MOST_FIELDS]
    requires { (at + offset widths 19 ≤ 240) × ((i : ℕ) → get_or widths i 0 ≤ 32) }
    ensures { result ≡ numbers_at 19 widths at (source (bits_at log.now p)) }
{
    let mut numbers = [0u32; MOST_FIELDS];
    let mut place = at;
    for (i, width) in widths.iter().enumerate() {
        numbers[i] = number_at(log, p, place, *width);
        place += *width;
    }
    numbers
}
