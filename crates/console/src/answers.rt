// What is printed of an answer. What cannot be printed is lost, and what follows is tried.
ghost use Rattle.std.specs.Prelude.{◌≡◌};
ghost use Rattle.std.specs.Result.{result_ok};

use answer::Refusal;
use std::fmt;
use std::fmt::{Display, Formatter};

// A refusal as it is printed: number, detail, and the condition in the words of documents 01 and 02.
#[derive(Clone, Copy)]
pub struct Refused(pub Refusal);

impl Display for Refused {
    fn fmt<W: fmt::Write>(&self, f: &mut Formatter<W>) -> fmt::Result {
        let number = self.0.number();
        let detail = self.0.detail();
        write!(f, "refused {number} {detail} {}", self.0)
    }
}

pub fn print_refusal<R: Print>(rt: &R, refusal: Refusal) {
    let _ = println!(rt; "{}", Refused(refusal));
}

// What is given. Where the call refuses, nothing is, and the line of the refusal is printed.
pub fn given_or_refused<R: Print, T>(rt: &R, answer: Result<T, Refusal>) -> Option<T>
    ensures { result ≡ result_ok answer }
{
    match answer {
        Ok(given) => Some(given),
        Err(refusal) => {
            print_refusal(rt, refusal);
            None
        }
    }
}

// Prints whether a call accepts, or the line of its refusal.
pub fn print_checked<R: Print>(rt: &R, answer: Result<(), Refusal>) {
    if given_or_refused(rt, answer).is_some() {
        let _ = println!(rt; "accepted");
    }
}
