// The writer: the block of a record.
#![tactic(auto)]

mod words;
mod writer;

pub use writer::write;
