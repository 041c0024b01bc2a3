// The library for people: one command for each call. `lnav COMMAND WORD..` does one command; `lnav` alone does the lines of standard input, and
// what was fed stays held until its end. `lnav help` lists the commands.
#![tactic(auto)]

mod command;
mod given;
mod inputs;
mod on_log;
mod problem;
mod questions;
mod request;
mod session;
mod written;

use crate::inputs::{Inputs, Source};
use crate::problem::Problem;
use crate::session::Session;
use input::LineEnd;
use std::env::Env;
use std::fs::File;
use std::rt::Files;

// Does the lines of the inputs until none is left. Nothing says that an input ends, so the turns are counted, up to a number that no run reaches.
fn run<R: Env + Input + Print + Files<File = File>, E: Print>(rt: &R, errors: &E, first: Source) {
    let mut session = Session::new(rt);
    let mut inputs = Inputs::new(first);
    for _ in 0..u64::MAX {
        let mut buf = io::buffer();
        let Some(read) = inputs.next_line(rt, &mut buf) else {
            return;
        };
        let line = &buf[..read.length];
        let done = match read.end {
            LineEnd::TooLong => Err(Problem::LineTooLong),
            _ => session.do_line(&mut inputs, line),
        };
        if let Err(problem) = done {
            let _ = problem.print(errors, line);
        }
    }
}

fn main(rt: HostRuntime) {
    let first = if input::has_arguments(&rt) {
        Source::Arguments
    } else {
        Source::Standard
    };
    run(&rt, &rt.stderr(), first);
}
