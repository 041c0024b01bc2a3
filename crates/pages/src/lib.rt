// What is held of almanac pages and of the UTC page: what a record does to that, and the questions for a page.
#![tactic(auto)]

mod held;
mod questions;

pub use held::Pages;
