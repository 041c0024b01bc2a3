// Document 01's listing program: reads a log from standard input, a byte 0 or 1 for each received bit, and prints a line for each accepted
// block on the walk. Where standard input cannot be read, or standard output not written, it says so on standard error.
#![tactic(auto)]

use std::io::Error;

// The system's reason in the text of an error, without the error's number.
fn reason_in(text: &str) -> &str {
    match text.split_once(" (os error ") {
        Some((reason, _)) => reason,
        None => text,
    }
}

// Writes a line to standard error: what failed, and the system's reason, which is left out where there is no memory for its text.
fn fail<R: Eprint + Alloc>(rt: &R, what: &str, error: &Error) {
    let Ok(text) = error.to_string(rt.alloc()) else {
        let _ = eprintln!(rt; "{what}");
        return;
    };
    let reason = reason_in(&text);
    let _ = eprintln!(rt; "{what}: {reason}");
}

fn main(rt: HostRuntime) {
    let mut log = input::log_buffer();
    match input::read_log(&mut rt.stdin(), &mut log) {
        Ok(n) => {
            if let Err(error) = console::print_listing(&rt, &log[..n]) {
                fail(&rt, "standard output", &error);
            }
        }
        Err(error) => fail(&rt, "standard input", &error.reason),
    }
}
