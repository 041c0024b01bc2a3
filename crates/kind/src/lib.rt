// Which kind a record is of: document 01's choice by subframe number, data ID and ID; and the number of a kind.
#![tactic(auto)]

mod kind;
mod number;

pub use kind::{kind_for, kind_of, of_its_kind};
pub use number::kind_number;
