// The words of a line and the lines of a table, each by its number: runs of bytes above a limit.
ghost use Rattle.std.specs.Prelude.{◌≡◌, ◌≤◌, length};
ghost use Rattle.lines.specs.Words as Words;
ghost use Rattle.lines.specs.internal.Side.{after};

// The first place at or after `from` of a byte that is not above the limit, or, where `above` is false, of one that is; the text's end where
// there is none.
#[tactic(auto, using(crate::proofs::laws::Words::after_steps))]
fn skip(text: &[u8], limit: u8, above: bool, from: usize) -> usize
    requires { from ≤ length text.now }
    ensures { (result ≡ after text.now limit above from) × (from ≤ result) × (result ≤ length text.now) }
{
    for at in from..text.len() {
        if (limit < text[at]) != above {
            return at;
        }
    }
    text.len()
}

// Run number i of bytes above the limit, or an empty part past the last run. A text has no more runs than bytes, so a large i is answered at once.
fn run<'a>(text: &'a [u8], limit: u8, i: usize) -> &'a [u8]
    ensures { result.now ≡ Words.run text.now limit i }
{
    if text.len() <= i {
        return &text[..0];
    }
    let mut from = 0;
    for passed in 0..i {
        let before = skip(text, limit, false, from);
        from = skip(text, limit, true, before);
    }
    let start = skip(text, limit, false, from);
    let end = skip(text, limit, true, start);
    &text[start..end]
}

// Word i of a text, the first being 0: bytes above 32. Past the last word it is empty.
pub fn word<'a>(text: &'a [u8], i: usize) -> &'a [u8]
    ensures { result.now ≡ Words.word text.now i }
{
    run(text, 32, i)
}

// Line i of a text, the first being 0: bytes above 10, so that empty lines do not count. Past the last line it is empty.
pub fn line<'a>(text: &'a [u8], i: usize) -> &'a [u8]
    ensures { result.now ≡ Words.line text.now i }
{
    run(text, 10, i)
}
