// Bytes, bits, text and decimal numbers, put into the caller's buffer.
#![tactic(auto)]

mod digits;
mod put;

pub use put::Cursor;
