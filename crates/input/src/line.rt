// The lines of an input.
ghost use Rattle.io.specs.Counts.{IsPrefixLen};

use std::io::Read;

// How a line ended: by a line feed, by the end of the input, or not within the buffer.
#[derive(Clone, Copy, PartialEq, Eq)]
pub enum LineEnd {
    Feed,
    End,
    TooLong,
}

// How many bytes of the lent buffer a line has, without the line feed, and how it ended. A length, as `std::io::Read` answers, which the contract
// names.
#[derive(Clone, Copy, PartialEq, Eq)]
pub struct Line {
    pub length: usize,
    pub end: LineEnd,
}

// The next byte of an input. A read that fails counts as the input's end.
fn read_byte<R: Read>(reader: &mut R) -> Option<u8> {
    let mut byte = [0u8; 1];
    match reader.read(&mut byte) {
        Ok(1) => Some(byte[0]),
        _ => None,
    }
}

// Reads to the end of the line. Nothing says that an input ends, so the turns are counted, up to a number that no run reaches.
fn skip_line<R: Read>(reader: &mut R) {
    for _ in 0..u64::MAX {
        if let None | Some(b'\n') = read_byte(reader) {
            return;
        }
    }
}

// Reads a line into the buffer. What is longer than the buffer is skipped.
pub fn read_line<R: Read>(reader: &mut R, buf: &mut [u8]) -> Line
    ensures { IsPrefixLen result.length buf.new }
{
    let room = buf.len();
    for length in 0..room {
        match read_byte(reader) {
            None => {
                return Line {
                    length,
                    end: LineEnd::End,
                };
            }
            Some(b'\n') => {
                return Line {
                    length,
                    end: LineEnd::Feed,
                };
            }
            Some(b) => buf[length] = b,
        }
    }
    skip_line(reader);
    Line {
        length: room,
        end: LineEnd::TooLong,
    }
}
