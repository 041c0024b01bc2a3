// What a subframe 1 says of its satellite's clock, as doubles: the clock terms.
#![tactic(auto)]

mod terms;

pub use terms::{ClockTerms, clock_terms};
