// The listing of a log: a header, and a line for each accepted block on the walk; or the refusal of an overlong log.
ghost use Rattle.std.specs.Prelude.{◌≡◌};
ghost use Rattle.bits.specs.Bits.{bits_at};
ghost use Rattle.text.specs.Cursor.{Puts};
ghost use Rattle.answer.specs.Answer.{answer_of};
ghost use Rattle.listing_text.specs.Listing as Listing;
ghost use Rattle.listing_text.specs.Listing.{letter, line_with, line, lines, walk, buffer_after, Lendable};

use answer::Refusal;
use block::Polarity;
use text::Cursor;

// U or I.
#[tactic(auto, unfolding(crate::specs::Listing::letter))]
pub fn letter_of(polarity: Polarity) -> u8
    ensures { result ≡ letter polarity }
{
    match polarity {
        Polarity::Upright => b'U',
        Polarity::Inverted => b'I',
    }
}

// Puts a line: place, subframe number, count, U or I. One caller, so that a struct of the four would be no plainer.
fn put_line(out: &mut Cursor<'_>, p: usize, number: usize, count: usize, letter: u8)
    ensures { Puts out.old (line_with p number count letter) out.new }
{
    out.put_field(p);
    out.put_field(number);
    out.put_field(count);
    out.put_byte(letter);
    out.put_byte(b'\n');
}

// Puts the line of the block at place p.
fn put_block_line(out: &mut Cursor<'_>, log: &[u8], p: usize)
    ensures { Puts out.old (line p (bits_at log.now p)) out.new }
{
    let number = block::subframe_number_at(log, p);
    let count = block::count_at(log, p);
    let letter = letter_of(block::polarity_at(log, p));
    put_line(out, p, number, count, letter);
}

// Puts the lines of the walk: searches the log from place 0 on, and after a block that is found goes on 300 places after it.
fn put_lines(out: &mut Cursor<'_>, log: &[u8])
    ensures { Puts out.old (lines log.now (walk log.now 0)) out.new }
{
    let mut p: usize = 0;
    while let Ok(q) = search::find(log, p) {
        put_block_line(out, log, q);
        p = q + block::BLOCK_STEP;
    }
}

// Puts the listing of a log at the start of a buffer and gives its length. Every listing fits. An overlong log is refused, and the buffer is as it
// was. The second promise, that so many bytes are there, lets a caller lend them.
#[tactic(auto, using(crate::proofs::laws::Listing::list_refuses, crate::proofs::laws::Listing::after_overlong))]
pub fn list(log: &[u8], out: &mut [u8; 4096]) -> Result<usize, Refusal>
    ensures result_value { (answer_of result ≡ Listing.list log.now) × (out.new ≡ buffer_after log.now out.old) }
    ensures lendable { Lendable result out.new }
{
    if block::LOG_LIMIT < log.len() {
        return Err(Refusal::LogTooLong(log.len()));
    }
    let mut listing = Cursor::new(out, 0);
    listing.put_text(b"place\tid\tcount\tpolarity\n");
    put_lines(&mut listing, log);
    Ok(listing.at())
}
