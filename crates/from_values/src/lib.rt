// The record that has given values, for callers that have no structs of ours.
#![tactic(auto)]

mod kinds;
mod numbers;
mod question;

pub use question::{record_with, subframe1_with, utc_page_with};
