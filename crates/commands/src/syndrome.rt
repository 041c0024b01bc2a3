// The syndrome of a word as people read it: its six digits, and the equations that failed.
use std::fmt;
use std::fmt::{Display, Formatter};

// A six-bit number, the failure of equation 25 highest.
#[derive(Clone, Copy)]
pub(crate) struct Syndrome(pub(crate) u32);

impl Display for Syndrome {
    // The equations are named by their bits. Where the word passes there are none.
    fn fmt<W: fmt::Write>(&self, f: &mut Formatter<W>) -> fmt::Result {
        write!(f, "syndrome {:06b}", self.0)?;
        if self.0 != 0 {
            f.write_str(" equations")?;
        }
        for k in 0..6_u32 {
            if self.0 & (0b100000 >> k) != 0 {
                write!(f, " {}", 25 + k)?;
            }
        }
        Ok(())
    }
}
