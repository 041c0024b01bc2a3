// Clock terms, accuracy and time for callers in C and Rust. `bindings/c/lnav.h` declares them.
#![tactic(auto)]

mod clock_questions;
mod time_question;

pub use clock_questions::{LnavRangeAccuracy, LnavTerms, lnav_accuracy, lnav_clock_terms};
pub use time_question::{LnavTime, lnav_time_of_day};
