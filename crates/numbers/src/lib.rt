// The numbers that stand in a record's fields.
#![tactic(auto)]

mod kinds;
mod unsigned;

pub use kinds::field_numbers;
