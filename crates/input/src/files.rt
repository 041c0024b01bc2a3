// Logs, read from files and from standard input.
ghost use Rattle.std.specs.Prelude.{◌≡◌, length, MatchResult};
ghost use Rattle.io.specs.Counts.{IsPrefixLen};

use std::fs;
use std::io::{Error, ErrorKind, Read};
use std::rt::Files;

// A read that failed: how many bytes of the lent buffer were read before it, and the system's reason.
#[derive(Drop)]
pub struct ReadError {
    pub length: usize,
    pub reason: Error,
}

// 65,537 zeros: one byte more than a log may have tells that it is overlong.
pub fn log_buffer() -> [u8; 65537]
    ensures { 65537 ≡ length result }
{
    [0; 65537]
}

// Reads until the buffer is full, the input ends or a read fails, and gives how many bytes were read. How often it reads is not known before, so
// it is no `for`.
pub fn read_log<R: Read>(reader: &mut R, buf: &mut [u8]) -> Result<usize, ReadError>
    ensures { MatchResult result (λ n. IsPrefixLen n buf.new) (λ e. IsPrefixLen e.length buf.new) }
{
    let mut length: usize = 0;
    while length < buf.len() {
        match reader.read(&mut buf[length..]) {
            Ok(0) => break,
            Ok(n) => length += n,
            Err(reason) => return Err(ReadError { length, reason }),
        }
    }
    Ok(length)
}

// Opens the file with this name. A name that is not UTF-8 is that of no file.
pub fn open_file<R: Files>(files: &R, name: &[u8]) -> Result<R::File, Error> {
    let path = str::from_utf8(name).map_err(|_| Error::from(ErrorKind::InvalidFilename))?;
    fs::open(files, path)
}

// Reads the file with this name. One that cannot be opened is a read that failed.
pub fn read_file<R: Files>(files: &R, name: &[u8], buf: &mut [u8]) -> Result<usize, ReadError>
    ensures { MatchResult result (λ n. IsPrefixLen n buf.new) (λ e. IsPrefixLen e.length buf.new) }
{
    let mut file = open_file(files, name).map_err(|reason| ReadError { length: 0, reason })?;
    read_log(&mut file, buf)
}
