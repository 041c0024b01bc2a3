// The collector for callers in C and Rust. `bindings/c/lnav.h` declares its functions.
#![tactic(auto)]

mod history;

pub use history::{lnav_almanac, lnav_feed, lnav_set, lnav_utc_page};
