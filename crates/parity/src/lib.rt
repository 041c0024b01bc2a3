// The parity of a word (document 000, 20.3.5): the word check, the source bits, the window that they take, and the bits of a log.
#![tactic(auto)]

mod source;
mod syndrome;
mod window;

pub use source::source_bits;
pub use syndrome::syndrome_of;
pub use window::{bit_at, packed_window};
