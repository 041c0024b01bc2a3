// The place of the first accepted block at or after a given place, or a refusal by number 1 or 10.
ghost use Rattle.std.specs.Prelude.{◌≡◌, ◌≤◌, length};
ghost use Rattle.answer.specs.Answer.{answer_of};
ghost use Rattle.search.specs.Search as Search;
ghost use Rattle.search.specs.Search.{first_place};

use answer::Refusal;

// The first accepted place at or after p, or one at or past the log's end: try p, then call itself for the next place, which is the form that
// document 01 names for the search. The definition first_place, of which the laws speak, is a number for none too. It takes a reference to the slice, so that the compiled recursion is a jump and takes no stack.
fn first_from(log: &&[u8], p: usize) -> usize
    requires { length log.now.now ≤ 65536 }
    ensures { result ≡ first_place log.now.now p }
{
    let bytes = *log;
    if bytes.len() <= p {
        return p;
    }
    if quick::accepted_at(bytes, p) {
        return p;
    }
    first_from(log, p + 1)
}

// Searches a log from place p on.
#[tactic(auto, using(crate::proofs::laws::Search::way_0, crate::proofs::laws::Search::way_1, crate::proofs::laws::Search::way_10))]
pub fn find(log: &[u8], p: usize) -> Result<usize, Refusal>
    ensures { answer_of result ≡ Search.find log.now p }
{
    if block::LOG_LIMIT < log.len() {
        return Err(Refusal::LogTooLong(log.len()));
    }
    let q = first_from(&log, p);
    if log.len() <= q {
        return Err(Refusal::NoBlock(p));
    }
    Ok(q)
}
