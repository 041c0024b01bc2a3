// Which satellites to trust first (document 02, request 1): the numbers of those whose set can be given, the most accurate first.
#![tactic(auto)]

mod list;
mod ranking;
mod standing;

pub use ranking::rank;
