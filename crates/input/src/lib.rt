// The lines, files and arguments that programs read.
#![tactic(auto)]

mod command_line;
mod files;
mod line;

pub use command_line::{arguments, has_arguments};
pub use files::{ReadError, log_buffer, open_file, read_file, read_log};
pub use line::{Line, LineEnd, read_line};
