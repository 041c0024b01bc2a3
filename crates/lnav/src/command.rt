// The commands, by their names.
use crate::problem::Problem;
use std::io;

// What is done with a log.
#[derive(Clone, Copy, PartialEq, Eq)]
pub(crate) enum OnLog {
    Check,
    Find,
    List,
    Read,
    Words,
    Feed,
    FeedAll,
}

// What is asked of the collector, or of a record that stands on the line.
#[derive(Clone, Copy, PartialEq, Eq)]
pub(crate) enum Question {
    Set,
    Almanac,
    Utc,
    Clock,
    Accuracy,
    Time,
}

#[derive(Clone, Copy, PartialEq, Eq)]
pub(crate) enum Command {
    OnLog(OnLog),
    Word,
    Write,
    Invert,
    Flip,
    Ask(Question),
    Rank,
    Forget,
    Run,
    Help,
}

// The commands in the order of their lines in the help text.
const COMMANDS: [Command; 21] = [
    Command::OnLog(OnLog::Check),
    Command::OnLog(OnLog::Find),
    Command::OnLog(OnLog::List),
    Command::OnLog(OnLog::Read),
    Command::OnLog(OnLog::Words),
    Command::OnLog(OnLog::Feed),
    Command::OnLog(OnLog::FeedAll),
    Command::Word,
    Command::Write,
    Command::Invert,
    Command::Flip,
    Command::Ask(Question::Set),
    Command::Ask(Question::Almanac),
    Command::Ask(Question::Utc),
    Command::Ask(Question::Clock),
    Command::Ask(Question::Accuracy),
    Command::Ask(Question::Time),
    Command::Rank,
    Command::Forget,
    Command::Run,
    Command::Help,
];

const TEXT: &str = "check LOG PLACE                 the block check at a place
find LOG PLACE                  the first accepted block at or after a place
list LOG                        place, number, count and polarity of each block
read LOG PLACE                  every field of the block at a place
words LOG PLACE                 the ten words of the block at a place
feed LOG PLACE SATELLITE        feeds the block at a place to the collector
feed-all LOG SATELLITE          feeds every block of a log
word BITS                       a word: 32 digits, the two bits before it first
write KIND VALUE.. [inverted]   the block of a record
invert written                  swaps 0 and 1 in the block
flip written INDEX              flips one bit of the block, 0 to 301
set N                           the orbit set of satellite N
almanac N                       the almanac page of SV ID N
utc                             the UTC page
clock N                         the clock terms of satellite N
accuracy N                      the user range accuracy of satellite N
time WEEK SECOND                the UTC time of day, by the UTC page
rank                            satellites with a set, smallest URA index first
forget                          empties the collector
run FILE                        does the commands of a file
help                            prints this
LOG: a file of one byte a bit, or the word written: the block written last.
KIND: subframe1, subframe2, subframe3, almanac, utc, other. VALUE: NAME=NUMBER.
For N of clock and accuracy also subframe1 VALUE.., after SECOND utc VALUE..
";

// The help text. The table stands here alone, because each function that names it is checked with all its bytes.
fn text() -> &'static str {
    TEXT
}

pub(crate) fn print_help<R: Print>(rt: &R) -> io::Result<()> {
    rt.write_all(text().as_bytes())
}

impl OnLog {
    // How many numbers it takes after the log: a place, a satellite.
    fn number_count(self) -> usize {
        match self {
            OnLog::List => 0,
            OnLog::Check | OnLog::Find | OnLog::Read | OnLog::Words | OnLog::FeedAll => 1,
            OnLog::Feed => 2,
        }
    }
}

impl Question {
    // How many numbers it takes: a satellite or an ID, or else a week and a second.
    fn number_count(self) -> usize {
        match self {
            Question::Utc => 0,
            Question::Set | Question::Almanac | Question::Clock | Question::Accuracy => 1,
            Question::Time => 2,
        }
    }

    // The word at which a record that it may be asked of begins with its kind.
    pub(crate) fn record_word(self) -> Option<usize> {
        match self {
            Question::Set | Question::Almanac | Question::Utc => None,
            Question::Clock | Question::Accuracy => Some(1),
            Question::Time => Some(3),
        }
    }
}

impl Command {
    // The command with this name.
    pub(crate) fn named(name: &[u8]) -> Result<Command, Problem> {
        lines::named(text().as_bytes(), name, 0, COMMANDS.len())
            .and_then(|i| COMMANDS.get(i).copied())
            .ok_or(Problem::NoCommand)
    }

    // The word at which its numbers begin: after its log, file or digits, or else after its name.
    pub(crate) fn first_number(self) -> usize {
        match self {
            Command::OnLog(_)
            | Command::Word
            | Command::Write
            | Command::Invert
            | Command::Flip
            | Command::Run => 2,
            Command::Ask(_) | Command::Rank | Command::Forget | Command::Help => 1,
        }
    }

    // How many numbers it takes.
    pub(crate) fn number_count(self) -> usize {
        match self {
            Command::OnLog(command) => command.number_count(),
            Command::Ask(question) => question.number_count(),
            Command::Flip => 1,
            Command::Word
            | Command::Write
            | Command::Invert
            | Command::Rank
            | Command::Forget
            | Command::Run
            | Command::Help => 0,
        }
    }
}
