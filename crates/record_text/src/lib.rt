// A record, and numbers with a scale, as text.
#![tactic(auto)]

mod decimals;
mod kinds;
mod print;
mod table;

pub use decimals::Tenths;
pub use kinds::{kind_name, kind_named, own_lines};
pub use print::{print_double, print_fields, print_record};
pub use table::{HEADER, field_table};
