// What is held through the run: what was fed, and the block that was written last.
use crate::command::{Command, print_help};
use crate::inputs::Inputs;
use crate::problem::Problem;
use crate::request::{Request, request_in};
use collector::Collector;
use std::fs::File;
use std::rt::Files;

// What cannot be printed is lost, and the next line is done.
#[derive(Drop)]
pub(crate) struct Session<'a, R> {
    pub(crate) rt: &'a R,
    pub(crate) collector: Collector,
    pub(crate) written: Option<[u8; 302]>,
}

// The word of a window that stands on a line as digits.
fn print_word<R: Print>(rt: &R, line: &[u8]) -> Result<(), Problem> {
    let digits = lines::word(line, 1);
    if digits.len() != 32 || !digits.iter().all(|digit| matches!(digit, b'0' | b'1')) {
        return Err(Problem::NoWindow);
    }
    commands::word(rt, digits);
    Ok(())
}

impl<'a, R: Print + Files<File = File>> Session<'a, R> {
    pub(crate) fn new(rt: &'a R) -> Self {
        Session {
            rt,
            collector: Collector::empty(),
            written: None,
        }
    }

    // Does a line. A comment is copied, and an empty line does nothing.
    pub(crate) fn do_line(&mut self, inputs: &mut Inputs, line: &[u8]) -> Result<(), Problem> {
        match lines::word(line, 0).first() {
            None => Ok(()),
            Some(b'#') => {
                let _ = self.rt.write_all(line);
                let _ = println!(self.rt);
                Ok(())
            }
            Some(_) => self.answer(inputs, request_in(line)?),
        }
    }

    fn answer(&mut self, inputs: &mut Inputs, request: Request<'_>) -> Result<(), Problem> {
        match request.command {
            Command::OnLog(command) => self.on_log(command, request),
            Command::Word => print_word(self.rt, request.line),
            Command::Write => self.write(request.line),
            Command::Invert => self.invert(request.line),
            Command::Flip => self.flip(request.line, request.first),
            Command::Ask(question) => self.ask(question, request),
            Command::Rank => {
                ranking_text::print_ranking(self.rt, &self.collector);
                Ok(())
            }
            Command::Forget => {
                self.collector = Collector::empty();
                Ok(())
            }
            Command::Run => inputs.run(self.rt, lines::word(request.line, 1)),
            Command::Help => {
                let _ = print_help(self.rt);
                Ok(())
            }
        }
    }
}
