// The collector: the latest records that were fed, and what is given of them.
#![tactic(auto)]

mod feed;
mod held;
mod questions;

pub use held::Collector;
