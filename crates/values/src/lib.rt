// A record as 25 whole numbers, for callers that have no structs of ours.
#![tactic(auto)]

mod to_values;

pub use to_values::values_of;
