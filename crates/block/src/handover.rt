// What the handover word, word 2, of a block says: the subframe number and the count.
ghost use Rattle.std.specs.Prelude.{◌≡◌, ◌+◌};
ghost use Rattle.bits.specs.Bits.{bits_at, pack, unpack};
ghost use Rattle.parity.specs.Word.{source_bits};
ghost use Rattle.block.specs.Block.{count, subframe_number};

// Window 2 of the block at place p of a log, packed. A bit past the end counts as 0.
fn window_2(log: &[u8], p: usize) -> u32
    ensures { result ≡ pack 32 (bits_at log.now (p + 30)) }
{
    parity::packed_window(log, p.saturating_add(30))
}

// The source bits of the handover word.
fn handover_word(log: &[u8], p: usize) -> u32
    ensures { result ≡ source_bits (unpack 32 (pack 32 (bits_at log.now (p + 30)))) }
{
    parity::source_bits(window_2(log, p))
}

// The subframe number of the block at place p of a log.
pub fn subframe_number_at(log: &[u8], p: usize) -> usize
    ensures { result ≡ subframe_number (bits_at log.now p) }
{
    (handover_word(log, p) / 4 % 8) as usize
}

// The count of the block at place p of a log.
pub fn count_at(log: &[u8], p: usize) -> usize
    ensures { result ≡ count (bits_at log.now p) }
{
    (handover_word(log, p) / 0x80 % 0x20000) as usize
}
