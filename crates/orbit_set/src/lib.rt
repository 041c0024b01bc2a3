// The orbit set of the subframes 1, 2 and 3 that are held of a satellite, and numbers 17 to 19 of document 01's table.
#![tactic(auto)]

mod held;
mod set;

pub use held::HeldSubframes;
pub use set::{OrbitSet, set_in};
