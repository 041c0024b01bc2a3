// What a call that may refuse answers: `Result`, with the refusals that all such calls share.
#![tactic(auto)]

mod refusal;

pub use refusal::Refusal;
