// Prints a record: a line for each field, or all of it on one line. What cannot be printed is lost.
use crate::decimals::{Exact, Scaled, pattern};
use crate::kinds::{kind_name, own_lines};
use crate::table::{HEADER, field_table};
use record::Record;

// A text of the table, which is ASCII.
fn text(bytes: &[u8]) -> &str {
    str::from_utf8(bytes).unwrap_or("")
}

// Prints a number as a line: name and number, and, where its line in the table has a scale, the value with its unit.
fn print_long<R: Print>(rt: &R, field: &[u8], number: i64) {
    let name = text(lines::word(field, 0));
    match digits::whole(lines::word(field, 1)) {
        Some(scale) => {
            let unit = text(lines::word(field, 2));
            let _ = println!(rt; "{name} {number} {} {unit}", Scaled { number, scale });
        }
        None => {
            let _ = println!(rt; "{name} {number}");
        }
    }
}

// Prints a number as `NAME=NUMBER`.
fn print_short<R: Print>(rt: &R, field: &[u8], number: i64) {
    let _ = print!(rt; " {}={number}", text(lines::word(field, 0)));
}

// Prints each field of a record by its line in the table and its number.
fn print_numbers<F: Fn(&[u8], i64)>(r: Record, print: F)
    requires { F.IsAlwaysCallable print }
{
    let table = field_table();
    let fields = (0..HEADER).chain(own_lines(kind::kind_of(r)));
    for (i, number) in fields.zip(values::values_of(r)) {
        print(lines::line(&table, i), number);
    }
}

// Prints the kind, and a line for each field: name, number, and the value with its unit.
pub fn print_fields<R: Print>(rt: &R, r: Record) {
    let _ = println!(rt; "kind {}", kind_name(kind::kind_of(r)));
    print_numbers(r, |field, number| print_long(rt, field, number));
}

// Prints a record as a line: its kind, and `NAME=NUMBER` for each field.
pub fn print_record<R: Print>(rt: &R, r: Record) {
    let _ = print!(rt; "{}", kind_name(kind::kind_of(r)));
    print_numbers(r, |field, number| print_short(rt, field, number));
    let _ = println!(rt);
}

// Prints a double as a line: its name, the double as an exact decimal, its unit, and its bits as 16 hexadecimal digits.
pub fn print_double<R: Print>(rt: &R, name: &str, x: f64, unit: &str) {
    let _ = println!(rt; "{name} {} {unit} {:016x}", Exact(x), pattern(x));
}
