// The records of the message: the six kinds, and the widths of their fields.
#![tactic(auto)]

mod kind;
mod record;
mod tables;

pub use kind::Kind;
pub use record::{
    AlmanacPage, Header, OtherPage, Record, Subframe1, Subframe2, Subframe3, UtcPage,
};
pub use tables::{MOST_FIELDS, header_widths, widths};
