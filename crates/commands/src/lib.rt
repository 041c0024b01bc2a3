// What the commands print: of logs, blocks and words; of feeds and of the collector's answers; and of what is worked out of records.
#![tactic(auto)]

mod log;
mod questions;
mod syndrome;
mod times;
mod windows;

pub use log::{check, find, print_fed, read};
pub use questions::{print_page, print_set};
pub use times::{print_accuracy, print_clock, print_time};
pub use windows::{word, words};
