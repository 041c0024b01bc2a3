// The block check, the search, the reader, the writer and the listing for callers in C and Rust: functions over numbers and slices, with the
// answers as plain structs. `bindings/c/lnav.h` declares them.
#![tactic(auto)]

mod blocks;
mod listing;

pub use blocks::{
    LnavFound, LnavPolarity, LnavReading, lnav_check, lnav_find, lnav_inverted, lnav_read,
    lnav_write,
};
pub use listing::{LnavListing, lnav_list};
