// What cannot be done.
use std::fmt::{Display, Formatter};
use std::{fmt, io};

#[derive(Clone, Copy)]
pub(crate) enum Problem {
    NoCommand,
    NoNumber,
    TooManyWords,
    NoKind,
    NoField,
    NotRead,
    NotWritten,
    NotChanged,
    NoBit,
    NoWindow,
    LineTooLong,
    TooManyFiles,
}

impl Display for Problem {
    fn fmt<W: fmt::Write>(&self, f: &mut Formatter<W>) -> fmt::Result {
        f.write_str(match self {
            Problem::NoCommand => "no such command",
            Problem::NoNumber => "not a number",
            Problem::TooManyWords => "too many words",
            Problem::NoKind => "no such kind",
            Problem::NoField => "no such field",
            Problem::NotRead => "cannot be read",
            Problem::NotWritten => "nothing is written",
            Problem::NotChanged => "only `written` can be changed",
            Problem::NoBit => "not a bit 0 to 301",
            Problem::NoWindow => "not 32 digits 0 or 1",
            Problem::LineTooLong => "the line is too long",
            Problem::TooManyFiles => "too many files",
        })
    }
}

impl Problem {
    // Prints the message, and the line that it is about, whose bytes need not be text.
    pub(crate) fn print<E: Print>(self, errors: &E, line: &[u8]) -> io::Result<()> {
        print!(errors; "{self}: ")?;
        errors.write_all(line)?;
        println!(errors)
    }
}
