// A block in a log: the view of the 302 bytes from a place on, where they are left. Functions that answer at any place, as C's do, take log and
// place apart.
ghost use Rattle.std.specs.Prelude.{◌≡◌, ◌+◌, ◌≤◌, length, option_map};
ghost use Rattle.bits.specs.Bits.{bits_at};
ghost use Rattle.block.specs.Block.{subframe_number, count};
ghost use Rattle.block.specs.View.{block_at};

use crate::bounds::has_room;
use crate::handover::{count_at, subframe_number_at};

#[derive(Clone, Copy)]
pub struct BlockAt<'a> {
    pub log: &'a [u8],
    pub place: usize,
    ghost room: { place + 302 ≤ length log.now },
}

impl<'a> BlockAt<'a> {
    // The block at a place of a log. None where fewer than 302 bytes are left.
    #[tactic(auto, unfolding(crate::specs::View::block_at))]
    pub fn new(log: &'a [u8], place: usize) -> Option<BlockAt<'a>>
        ensures { option_map (λ b. (b.log.now, b.place)) result ≡ block_at log.now place }
    {
        if has_room(log, place) {
            Some(BlockAt { log, place })
        } else {
            None
        }
    }

    // Byte j of the block, and of what follows it in the log. Past the end it is 0.
    pub fn byte(self, j: usize) -> u8
        ensures { result ≡ bits_at self.entry.log.now self.entry.place j }
    {
        match self.log[self.place..].get(j) {
            Some(byte) => *byte,
            None => 0,
        }
    }

    pub fn subframe_number(self) -> usize
        ensures { result ≡ subframe_number (bits_at self.entry.log.now self.entry.place) }
    {
        subframe_number_at(self.log, self.place)
    }

    pub fn count(self) -> usize
        ensures { result ≡ count (bits_at self.entry.log.now self.entry.place) }
    {
        count_at(self.log, self.place)
    }
}
