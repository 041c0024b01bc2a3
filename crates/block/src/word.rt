// The word check at a place of a log: the syndrome of a word of the block there.
ghost use Rattle.std.specs.Prelude.{◌≡◌};
ghost use Rattle.block.specs.Syndrome.{syndrome_at};

use crate::bounds::has_word;

// The syndrome of word k, 1 to 10, of the block at place p of a log. None where that word is not there.
#[tactic(auto, using(crate::specs::laws::Packed::packed_syndrome), unfolding(crate::specs::Syndrome::syndrome_at, crate::specs::Syndrome::has_word))]
pub fn syndrome_at(log: &[u8], p: usize, k: usize) -> Option<u32>
    ensures { result ≡ syndrome_at log.now p k }
{
    if !has_word(log, p, k) {
        return None;
    }
    let window = parity::packed_window(log, p + 30 * (k - 1));
    Some(parity::syndrome_of(window))
}
