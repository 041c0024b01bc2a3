// Document 01's listing, as programs print it.
use answer::Refusal;
use std::io::Result;
use text::Cursor;

// Document 01's line of a refusal, which has no detail and no condition.
fn print_line<R: Print>(rt: &R, refusal: Refusal) -> Result<()> {
    let mut line = io::buffer();
    let mut text = Cursor::new(&mut line, 0);
    text.put_refusal(refusal.number());
    let n = text.at();
    rt.write_all(&line[..n])
}

// Prints the listing of a log, or the line of its refusal.
pub fn print_listing<R: Print>(rt: &R, log: &[u8]) -> Result<()> {
    let mut text = io::buffer();
    match listing_text::list(log, &mut text) {
        Ok(n) => rt.write_all(&text[..n]),
        Err(refusal) => print_line(rt, refusal),
    }
}
