// The numbers that a text writes in decimal digits.
#![tactic(auto)]

mod numbers;

pub use numbers::{natural, whole};
