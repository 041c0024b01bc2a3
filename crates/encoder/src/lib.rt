// The encoder of a word (document 000, 20.3.5): the word for a pair and 24 source bits, and the fillers that give it a wanted ending.
#![tactic(auto)]

mod encode;

pub use encode::{encode_ending, encode_word};
