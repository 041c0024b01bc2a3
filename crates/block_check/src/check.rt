// The block check: accepted, or refused by the numbers 1 to 9 in the order of document 01's table.
ghost use Rattle.std.specs.Prelude.{◌≡◌, ◌<◌, ◌≤◌, not, MatchOption};
ghost use Rattle.bits.specs.Bits.{bits_at};
ghost use Rattle.parity.specs.Word.{passes};
ghost use Rattle.answer.specs.Answer.{answer_of};
ghost use Rattle.block.specs.Block.{window};
ghost use Rattle.block_check.specs.Check as Check;
ghost use Rattle.block_check.specs.Check.{ends_alike, first_above, first_broken};

use answer::Refusal;
use block::BlockAt;

// The index of the block's first byte above 1.
fn first_above(block: BlockAt) -> Option<usize>
    ensures { MatchOption result (first_above (bits_at block.entry.log.now block.entry.place) ≡ 302) (λ i. (i < 302) × (first_above (bits_at block.entry.log.now block.entry.place) ≡ i)) }
{
    for i in 0..block::BLOCK_BYTES {
        let byte = block.log[block.place + i];
        if 1 < byte {
            return Some(i);
        }
    }
    None
}

// Whether word k breaks the parity table.
#[tactic(auto, using(block::specs::laws::Packed::packed_syndrome), unfolding(parity::specs::Word::passes))]
fn breaks(block: BlockAt, k: usize) -> bool
    requires { (1 ≤ k) × (k ≤ 10) }
    ensures { result ≡ not (passes (window (bits_at block.entry.log.now block.entry.place) k)) }
{
    parity::syndrome_of(parity::packed_window(block.log, block.place + 30 * (k - 1))) != 0
}

// The block's first word that breaks the parity table.
fn first_broken(block: BlockAt) -> Option<usize>
    ensures { MatchOption result (first_broken (bits_at block.entry.log.now block.entry.place) ≡ 11) (λ k. (k < 11) × (first_broken (bits_at block.entry.log.now block.entry.place) ≡ k)) }
{
    for k in 1..=10 {
        if breaks(block, k) {
            return Some(k);
        }
    }
    None
}

// Whether the last two bits of word k equal the start pair.
fn ends_alike(block: BlockAt, k: usize) -> bool
    requires { (1 ≤ k) × (k ≤ 10) }
    ensures { result ≡ ends_alike (bits_at block.entry.log.now block.entry.place) k }
{
    block.byte(30 * k) == block.byte(0) && block.byte(30 * k + 1) == block.byte(1)
}

// Numbers 6 to 9.
fn check_fields(block: BlockAt) -> Result<(), Refusal>
    ensures { answer_of result ≡ Check.check_fields (bits_at block.entry.log.now block.entry.place) }
{
    let telemetry = parity::source_bits(parity::packed_window(block.log, block.place));
    if telemetry / 0x10000 % 0x100 != 0b10001011 {
        return Err(Refusal::Preamble);
    }
    if !ends_alike(block, 2) {
        return Err(Refusal::Ending(2));
    }
    if !ends_alike(block, 10) {
        return Err(Refusal::Ending(10));
    }
    let number = block.subframe_number();
    if number == 0 || 5 < number {
        return Err(Refusal::SubframeNumber(number));
    }
    let count = block.count();
    if block::LARGEST_COUNT < count {
        return Err(Refusal::Count(count));
    }
    Ok(())
}

// Numbers 2, 4 and 5, then those.
#[tactic(auto, using(crate::specs::laws::Ways::way_2, crate::specs::laws::Ways::way_4, crate::specs::laws::Ways::way_5, crate::specs::laws::Ways::way_fields))]
fn check_bits(block: BlockAt) -> Result<(), Refusal>
    ensures { answer_of result ≡ Check.check_bits block.entry.place (bits_at block.entry.log.now block.entry.place) }
{
    if let Some(i) = first_above(block) {
        return Err(Refusal::ByteAbove1(block.place + i));
    }
    if block.byte(0) != block.byte(1) {
        return Err(Refusal::StartPair(block.place));
    }
    if let Some(k) = first_broken(block) {
        return Err(Refusal::WordBroken(k));
    }
    check_fields(block)
}

// The block check at place p of a log.
#[tactic(auto, using(crate::specs::laws::Ways::way_1))]
pub fn check_block(log: &[u8], p: usize) -> Result<(), Refusal>
    ensures { answer_of result ≡ Check.check_block log.now p }
{
    if block::LOG_LIMIT < log.len() {
        return Err(Refusal::LogTooLong(log.len()));
    }
    let Some(block) = BlockAt::new(log, p) else {
        return Err(Refusal::TooFewBytes(p));
    };
    check_bits(block)
}
