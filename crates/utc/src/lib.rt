// From a GPS second to UTC, by a UTC page.
#![tactic(auto)]

mod time;

pub use time::time_of_day;
