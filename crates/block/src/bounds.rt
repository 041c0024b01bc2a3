// The sizes of a block and of a log, and whether a block, or a word of it, is left at a place.
ghost use Rattle.std.specs.Prelude.{◌≡◌, ◌+◌, leb, length};
ghost use Rattle.block.specs.Block.{has_room};
ghost use Rattle.block.specs.Syndrome.{has_word};

// The bytes of a block: its start pair and ten words of 30 bits.
pub const BLOCK_BYTES: usize = 302;

// The bits of its ten words: the next block of a stream begins so many places later.
pub const BLOCK_STEP: usize = 300;

// The most bytes that a log has.
pub const LOG_LIMIT: usize = 65536;

// The largest count: a week has 100,800, one for each 6 s.
pub const LARGEST_COUNT: usize = 100799;

// Whether n bytes are left from place p of a log on.
fn has_bytes(log: &[u8], p: usize, n: usize) -> bool
    ensures { result ≡ leb (p + n) (length log.now) }
{
    log.len().checked_sub(n).is_some_and(|last| p <= last)
}

// Whether the bytes of a block are left from place p of a log on.
pub fn has_room(log: &[u8], p: usize) -> bool
    ensures { result ≡ has_room log.now p }
{
    has_bytes(log, p, BLOCK_BYTES)
}

// Whether a block at place p of a log has a word k, 1 to 10, and the bytes of its window are left.
#[tactic(auto, unfolding(crate::specs::Syndrome::has_word))]
pub fn has_word(log: &[u8], p: usize, k: usize) -> bool
    ensures { result ≡ has_word log.now p k }
{
    (1..=10).contains(&k) && has_bytes(log, p, 30 * k + 2)
}
