// The words of a block: whether each passes the parity table, its source bits, and which equations failed.
use crate::syndrome::Syndrome;
use answer::Refusal;
use console::print_refusal;
use std::fmt;
use std::fmt::{Display, Formatter};

// A window's word: whether it passes, its 24 source bits, the first first, and its syndrome.
#[derive(Clone, Copy)]
struct Window(u32);

impl Display for Window {
    fn fmt<W: fmt::Write>(&self, f: &mut Formatter<W>) -> fmt::Result {
        let syndrome = parity::syndrome_of(self.0);
        let passes = if syndrome == 0 { "passes" } else { "fails" };
        let source = parity::source_bits(self.0);
        write!(f, "{passes} {source:024b} {}", Syndrome(syndrome))
    }
}

// The word of a window that is given as 32 digits: P, Q and bits 1 to 30. A digit's byte is odd where the bit is 1.
pub fn word<R: Print>(rt: &R, digits: &[u8]) {
    let _ = println!(rt; "{}", Window(parity::packed_window(digits, 0)));
}

// The ten words of the block at p.
fn print_words<R: Print>(rt: &R, log: &[u8], p: usize) {
    for k in 0..10 {
        let window = Window(parity::packed_window(log, p.wrapping_add(30 * k)));
        let _ = println!(rt; "{} {window}", k + 1);
    }
}

// The ten words of the block at a place. Where there are no 302 bits the block check's refusal says so.
pub fn words<R: Print>(rt: &R, log: &[u8], p: usize) {
    match block_check::check_block(log, p) {
        Err(
            refusal @ (Refusal::LogTooLong(_) | Refusal::ByteAbove1(_) | Refusal::TooFewBytes(_)),
        ) => print_refusal(rt, refusal),
        _ => print_words(rt, log, p),
    }
}
