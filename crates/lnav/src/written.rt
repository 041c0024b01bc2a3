// The block that was written last.
use crate::given::given_at;
use crate::problem::Problem;
use crate::request::ends;
use crate::session::Session;
use block::Polarity;
use console::print_refusal;
use std::fmt;
use std::fmt::{Display, Formatter};

// The bits of a block as digits. They are 0 and 1, so that the digits are text.
#[derive(Clone, Copy)]
struct Digits([u8; 302]);

impl Display for Digits {
    fn fmt<W: fmt::Write>(&self, f: &mut Formatter<W>) -> fmt::Result {
        let mut digits = self.0;
        for digit in &mut digits {
            *digit = digit.wrapping_add(b'0');
        }
        f.write_str(str::from_utf8(&digits).unwrap_or("?"))
    }
}

// The other bit. A byte above 1 is no bit, and stays.
fn other_bit(bit: u8) -> u8 {
    match bit {
        0 => 1,
        1 => 0,
        _ => bit,
    }
}

impl<'a, R: Print> Session<'a, R> {
    // Holds a block, and prints its bits as a line.
    fn hold(&mut self, bits: [u8; 302]) {
        self.written = Some(bits);
        let _ = println!(self.rt; "{}", Digits(bits));
    }

    // Writes the record of a line, where no word is left after it. Where it is refused the block before stays.
    pub(crate) fn write(&mut self, line: &[u8]) -> Result<(), Problem> {
        let given = given_at(line, 1)?;
        let is_inverted = lines::same(lines::word(line, given.next), b"inverted");
        ends(line, given.next.wrapping_add(usize::from(is_inverted)))?;
        let mut bits = [0u8; 302];
        let answer = from_values::record_with(given.kind.number(), &given.values).and_then(
            |r| writer::write(r, Polarity::from(is_inverted), &mut bits),
        );
        match answer {
            Ok(()) => self.hold(bits),
            Err(refusal) => {
                print_refusal(self.rt, refusal);
            }
        }
        Ok(())
    }

    // The block that a line changes: word 1 is `written`, and there is one.
    fn changed(&self, line: &[u8]) -> Result<[u8; 302], Problem> {
        if !lines::same(lines::word(line, 1), b"written") {
            return Err(Problem::NotChanged);
        }
        self.written.ok_or(Problem::NotWritten)
    }

    // Swaps 0 and 1 in the block.
    pub(crate) fn invert(&mut self, line: &[u8]) -> Result<(), Problem> {
        let mut bits = self.changed(line)?;
        for bit in &mut bits {
            *bit = other_bit(*bit);
        }
        self.hold(bits);
        Ok(())
    }

    // Flips the bit of the block with this index.
    pub(crate) fn flip(&mut self, line: &[u8], index: u64) -> Result<(), Problem> {
        let mut bits = self.changed(line)?;
        let bit = bits.get_mut(index as usize).ok_or(Problem::NoBit)?;
        *bit = other_bit(*bit);
        self.hold(bits);
        Ok(())
    }
}
