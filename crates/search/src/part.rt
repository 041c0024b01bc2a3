// The block that the search finds, as a part of the caller's own log.
ghost use Rattle.std.specs.Prelude.{◌≡◌, ◌+◌};
ghost use Rattle.search.specs.Search as Search;
ghost use Rattle.search.specs.Search.{part_of, part_place};

use crate::place::find;

// The 302 bytes of the block that `find` finds, or none where it refuses. The two promises say what the bytes are, and where in the
// caller's memory the part begins.
pub fn find_part<'a>(log: &'a [u8], p: usize) -> &'a [u8]
    ensures bytes { result.now ≡ part_of log.now (Search.find log.now p) }
    ensures own { result.ref_ptr ≡ (log.entry.ref_ptr.0, log.entry.ref_ptr.1 + part_place (Search.find log.now p)) }
{
    match find(log, p) {
        Ok(q) => &log[q..q + block::BLOCK_BYTES],
        Err(_) => &log[..0],
    }
}
