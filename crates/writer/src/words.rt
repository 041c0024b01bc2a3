// The words of a block, one after the other, from its message.
ghost use Rattle.std.specs.Prelude.{◌≡◌, ℕ, ◌/◌, ◌%◌, ◌≤◌, ◌<◌};
ghost use Rattle.finite.specs.Tabulate.{tabulate};
ghost use Rattle.text.specs.Cursor.{Puts};
ghost use Rattle.bits.specs.Bits.{bits_at, pack};
ghost use Rattle.writer.specs.Written.{has_fillers, word_after, block_from};

use text::Cursor;

#[tactic(auto, unfolding(crate::specs::Written::has_fillers))]
fn has_fillers(k: usize) -> bool
    ensures { result ≡ has_fillers k }
{
    matches!(k, 2 | 10)
}

// Word k after the window `before`, packed, in a block whose start pair is a, a.
fn word_after(message: &[u8; 240], a: u32, k: usize, before: u32) -> u32
    requires { (1 ≤ k) × ((k ≤ 10) × ((i : ℕ) → bits_at message.now 0 i < 2)) }
    ensures { result ≡ pack 32 (word_after (bits_at message.now 0) a k (before / 2 % 2) (before % 2)) }
{
    let source = parity::packed_window(message, 24 * (k - 1)) / 0x100;
    if has_fillers(k) {
        return encoder::encode_ending(before / 2 % 2, before % 2, source, a, a);
    }
    encoder::encode_word(before / 2 % 2, before % 2, source)
}

// Writes the block that carries a message from the start pair a, a on.
pub(crate) fn put_block(out: &mut Cursor<'_>, message: &[u8; 240], a: u32)
    requires { (a < 2) × ((i : ℕ) → bits_at message.now 0 i < 2) }
    ensures { Puts out.old (tabulate 302 (block_from (bits_at message.now 0) a)) out.new }
{
    // The start pair as a number of two bits.
    let mut window = a * 3;
    out.put_bits(2, window);
    for k in 1..=10 {
        window = word_after(message, a, k, window);
        out.put_bits(30, window);
    }
}
