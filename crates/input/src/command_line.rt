// The program's arguments, as the words of a line.
ghost use Rattle.std.specs.Prelude.{◌≡◌, ◌≤◌, length};
ghost use Rattle.io.specs.Counts.{IsPrefixLen};

use std::env::{Env, FillError};
use text::Cursor;

// Puts a blank, where something stands before it, and an argument.
fn put_argument(out: &mut Cursor<'_>, word: &[u8])
    requires { out.old.at ≤ length out.old.out.now }
    ensures same_buffer { out.new.out.ghost_name ≡ out.old.out.ghost_name }
    ensures inside { out.new.at ≤ length out.new.out.now }
{
    if out.at() > 0 {
        out.put_byte(b' ');
    }
    out.put_text(word);
}

// Whether the program was given arguments.
pub fn has_arguments<R: Env>(env: &R) -> bool {
    let mut word = [0u8; 1];
    !matches!(env.arg(1, &mut word), Err(FillError::NotPresent))
}

// Puts the program's arguments into the buffer as the words of a line, as far as there is room, and gives the line's length. One that is longer
// than 4,096 bytes stands there as an empty word.
pub fn arguments<R: Env>(env: &R, buf: &mut [u8]) -> usize
    ensures { IsPrefixLen result buf.new }
{
    let mut line = Cursor::new(buf, 0);
    for i in 1..usize::MAX {
        let mut word = io::buffer();
        let n = match env.arg(i, &mut word) {
            Ok(n) => n,
            Err(FillError::TooLong) => 0,
            Err(FillError::NotPresent) => break,
        };
        put_argument(&mut line, &word[..n]);
    }
    line.at()
}
