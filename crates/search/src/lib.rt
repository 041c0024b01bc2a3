// The search: the first block of a log that the block check accepts, as its place and as a part of the caller's log.
#![tactic(auto)]

mod part;
mod place;

pub use part::find_part;
pub use place::find;
