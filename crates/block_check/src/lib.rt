// The block check (document 01, 'Numbers by the place of the check').
#![tactic(auto)]

mod check;

pub use check::check_block;
