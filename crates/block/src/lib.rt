// The block: its size, what it says of itself, its subframe number, count and polarity, and the syndromes of its words.
#![tactic(auto)]

mod bounds;
mod handover;
mod polarity;
mod view;
mod word;

pub use bounds::{BLOCK_BYTES, BLOCK_STEP, LARGEST_COUNT, LOG_LIMIT, has_room, has_word};
pub use handover::{count_at, subframe_number_at};
pub use polarity::{Polarity, polarity_at};
pub use view::BlockAt;
pub use word::syndrome_at;
