// The listing of a log (document 01, 'Listing program'), put into the caller's buffer.
#![tactic(auto)]

mod listing;

pub use listing::{letter_of, list};
