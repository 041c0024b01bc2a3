// Block check, search and reader, and the answer of a feed. They take log and place apart, as the library's functions do.
use crate::syndrome::Syndrome;
use answer::Refusal;
use console::{Refused, given_or_refused, print_checked};
use record_text::print_fields;

// The block check at a place. Behind a refusal by 5 stands the syndrome of the word that it names.
pub fn check<R: Print>(rt: &R, log: &[u8], p: usize) {
    let answer = block_check::check_block(log, p);
    if let Err(refusal @ Refusal::WordBroken(k)) = answer
        && let Some(syndrome) = block::syndrome_at(log, p, k)
    {
        let _ = println!(rt; "{} {}", Refused(refusal), Syndrome(syndrome));
        return;
    }
    print_checked(rt, answer);
}

// Prints `feed`, the place, the satellite and the answer.
pub fn print_fed<R: Print>(rt: &R, p: usize, satellite: usize, answer: Result<(), Refusal>) {
    let _ = print!(rt; "feed {p} {satellite} ");
    print_checked(rt, answer);
}

// The part of a log that a search gives, and what its block says of itself. That of a refused search is empty.
fn print_part<R: Print>(rt: &R, part: &[u8]) {
    let bytes = part.len();
    if bytes == 0 {
        let _ = println!(rt; "part bytes=0");
        return;
    }
    let polarity = char::from(listing_text::letter_of(block::polarity_at(part, 0)));
    let subframe = block::subframe_number_at(part, 0);
    let count = block::count_at(part, 0);
    let _ = println!(rt;
        "part bytes={bytes} polarity={polarity} subframe={subframe} count={count}"
    );
}

// The search from a place on: its place or refusal, and its part.
pub fn find<R: Print>(rt: &R, log: &[u8], p: usize) {
    if let Some(q) = given_or_refused(rt, search::find(log, p)) {
        let _ = println!(rt; "found {q}");
    }
    print_part(rt, search::find_part(log, p));
}

// The kind and every field of the block at a place.
pub fn read<R: Print>(rt: &R, log: &[u8], p: usize) {
    if let Some(record) = given_or_refused(rt, reader::read(log, p)) {
        print_fields(rt, record);
    }
}
