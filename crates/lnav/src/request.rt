// What a line asks for: its command and the numbers of it.
use crate::command::Command;
use crate::given::kind_at;
use crate::problem::Problem;

// The line, its command, the word at which a record stands, if any, and up to two numbers, of which no command
// reads more than it takes.
#[derive(Clone, Copy)]
pub(crate) struct Request<'a> {
    pub(crate) line: &'a [u8],
    pub(crate) command: Command,
    pub(crate) record: Option<usize>,
    pub(crate) first: u64,
    pub(crate) second: u64,
}

// The word at which a command's record begins with its kind.
fn record_at(command: Command, line: &[u8]) -> Option<usize> {
    match command {
        Command::Write => Some(1),
        Command::Ask(question) => {
            let i = question.record_word()?;
            kind_at(line, i).map(|_| i)
        }
        Command::OnLog(_)
        | Command::Word
        | Command::Invert
        | Command::Flip
        | Command::Rank
        | Command::Forget
        | Command::Run
        | Command::Help => None,
    }
}

// The number that word i writes.
fn number_at(line: &[u8], i: usize) -> Result<u64, Problem> {
    digits::natural(lines::word(line, i)).ok_or(Problem::NoNumber)
}

// Refuses a line that has a word i.
pub(crate) fn ends(line: &[u8], i: usize) -> Result<(), Problem> {
    if lines::word(line, i).is_empty() {
        Ok(())
    } else {
        Err(Problem::TooManyWords)
    }
}

// What a line asks for. No word is left after its numbers, but where a record stands. A record at word 1 stands in place of the numbers.
pub(crate) fn request_in(line: &[u8]) -> Result<Request<'_>, Problem> {
    let command = Command::named(lines::word(line, 0))?;
    let record = record_at(command, line);
    let count = if record == Some(1) {
        0
    } else {
        command.number_count()
    };
    let i = command.first_number();
    let first = if 0 < count { number_at(line, i)? } else { 0 };
    let second = if 1 < count {
        number_at(line, i.wrapping_add(1))?
    } else {
        0
    };
    if record.is_none() {
        ends(line, i.wrapping_add(count))?;
    }
    Ok(Request {
        line,
        command,
        record,
        first,
        second,
    })
}
