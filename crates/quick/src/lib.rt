// Whether the block check accepts, answered fast: at most places the preamble or the start pair already excludes it.
#![tactic(auto)]

ghost use Rattle.std.specs.Prelude.{◌≡◌};
ghost use Rattle.bits.specs.Bits.{bits_at};
ghost use Rattle.block_check.specs.Check.{accepted_at};
ghost use Rattle.quick.specs.internal.Quick.{preamble_bytes, pair_is, may_start};

use block::BlockAt;
use block_check::check_block;

// The preamble 10001011, a byte a bit, and its inverse.
const UPRIGHT: u64 = 0x0100000001000101;

const INVERTED: u64 = 0x0001010100010000;

// The eight bytes of a block's preamble as one number, the first highest, counted as the definition counts them.
fn preamble_bytes(block: BlockAt) -> u64
    ensures { result ≡ preamble_bytes (bits_at block.entry.log.now block.entry.place) }
{
    let mut bytes: u64 = 0;
    for byte in &block.log[block.place + 2..block.place + 10] {
        bytes = bytes * 256 + u64::from(*byte);
    }
    bytes
}

// Whether both bytes of a block's start pair are x.
#[tactic(auto, unfolding(crate::specs::internal::Quick::pair_is))]
fn pair_is(block: BlockAt, x: u8) -> bool
    ensures { result ≡ pair_is (bits_at block.entry.log.now block.entry.place 0) (bits_at block.entry.log.now block.entry.place 1) x }
{
    block.log[block.place] == x && block.log[block.place + 1] == x
}

// Whether a block has the preamble after the pair 00, or its inverse after 11.
#[tactic(auto, unfolding(crate::specs::internal::Quick::may_start, crate::specs::internal::Quick::start_right))]
fn may_start(block: BlockAt) -> bool
    ensures { result ≡ may_start (bits_at block.entry.log.now block.entry.place) }
{
    match preamble_bytes(block) {
        UPRIGHT => pair_is(block, 0),
        INVERTED => pair_is(block, 1),
        _ => false,
    }
}

// Whether the block check accepts the block at place p of a log.
pub fn accepted_at(log: &[u8], p: usize) -> bool
    ensures { result ≡ accepted_at log.now p }
{
    let Some(block) = BlockAt::new(log, p) else {
        return false;
    };
    may_start(block) && check_block(log, p).is_ok()
}
