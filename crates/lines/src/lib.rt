// A line of text as words, and a table as lines.
#![tactic(auto)]

mod names;
mod words;

pub use names::{named, same};
pub use words::{line, word};
