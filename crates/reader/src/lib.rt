// The reader: the record of the block at a place of a log.
#![tactic(auto)]

mod numbers;
mod reader;

pub use reader::read;
