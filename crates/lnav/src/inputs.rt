// The inputs that are open: a file that is run stands above the input that runs it.
ghost use Rattle.std.specs.Prelude.{IfSome};
ghost use Rattle.io.specs.Counts.{IsPrefixLen};

use crate::problem::Problem;
use arrayvec::ArrayVec;
use input::{Line, LineEnd};
use std::env::Env;
use std::fs::File;
use std::rt::Files;

// Where lines are read from. The program's arguments are an input of one line. The default stands in the places that are free.
#[derive(Default, Drop)]
pub(crate) enum Source {
    #[default]
    Arguments,
    Standard,
    Opened(File),
}

// Open inputs, eight at most and with no heap, of which the last is read; and the one that ended with the line that is being done.
#[derive(Drop)]
pub(crate) struct Inputs {
    sources: ArrayVec<Source, 8>,
    ended: Option<Source>,
}

// Reads a line of an input.
fn line_of<R: Env + Input>(rt: &R, source: &mut Source, buf: &mut [u8]) -> Line
    ensures { IsPrefixLen result.length buf.new }
{
    match source {
        Source::Arguments => Line {
            length: input::arguments(rt, buf),
            end: LineEnd::End,
        },
        Source::Standard => input::read_line(&mut rt.reader(), buf),
        Source::Opened(file) => input::read_line(file, buf),
    }
}

impl Inputs {
    pub(crate) fn new(first: Source) -> Self {
        let mut sources = ArrayVec::new();
        sources.push(first);
        Inputs {
            sources,
            ended: None,
        }
    }

    // Closes the input that ended with the previous line, and reads a line of the last one. At its end the one before it goes on.
    pub(crate) fn next_line<R: Env + Input>(&mut self, rt: &R, buf: &mut [u8]) -> Option<Line>
        ensures { IfSome result (λ line. IsPrefixLen line.length buf.new) }
    {
        self.ended = None;
        let line = line_of(rt, self.sources.last_mut()?, buf);
        if line.end == LineEnd::End {
            self.ended = self.sources.pop();
        }
        Some(line)
    }

    // Opens the file with this name: its lines are done before those that are left. An input that ended with this line is closed first.
    pub(crate) fn run<R: Files<File = File>>(
        &mut self,
        rt: &R,
        name: &[u8],
    ) -> Result<(), Problem> {
        self.ended = None;
        if self.sources.is_full() {
            return Err(Problem::TooManyFiles);
        }
        let file = input::open_file(rt, name).map_err(|_| Problem::NotRead)?;
        self.sources.push(Source::Opened(file));
        Ok(())
    }
}
