// What programs print: of an answer, and the listing.
#![tactic(auto)]

mod answers;
mod listing;

pub use answers::{Refused, given_or_refused, print_checked, print_refusal};
pub use listing::print_listing;
