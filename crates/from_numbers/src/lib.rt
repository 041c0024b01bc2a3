// A record from the numbers that stand in its fields.
#![tactic(auto)]

mod kinds;
mod signed;

pub use kinds::record_from;
