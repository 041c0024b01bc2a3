// Which records the writer takes: number 11 refuses all others.
#![tactic(auto)]

ghost use Rattle.std.specs.Prelude.{◌≡◌, ℕ, ◌≤◌, get_or};
ghost use Rattle.answer.specs.Answer.{answer_of};
ghost use Rattle.layout.specs.internal.Table.{all_fit};
ghost use Rattle.layout.specs.Layout.{all_within};
ghost use Rattle.record.specs.Fields.{header_fields, fields_of};
ghost use Rattle.record.specs.Record.{kind_of, header, header_values, field_values};
ghost use Rattle.record.specs.Writable as Writable;
ghost use Rattle.writable.specs.Check as Check;

use answer::Refusal;
use header::header_numbers;
use numbers::field_numbers;
use record::{MOST_FIELDS, Record};

// The largest count of a week. Crate block has the same number for counts in a log, as a `usize`; this crate does not stand on block.
const LARGEST_COUNT: u32 = 100799;

// Whether each number is within its width.
fn all_fit(widths: [usize; MOST_FIELDS], n: [u32; MOST_FIELDS]) -> bool
    requires { (i : ℕ) → get_or widths i 0 ≤ 32 }
    ensures { result ≡ all_fit 19 widths n }
{
    for (width, number) in widths.iter().zip(&n) {
        if u64::from(*number) >= 1 << *width {
            return false;
        }
    }
    true
}

// Whether each value of the header is within its field.
fn header_within(r: Record) -> bool
    ensures { result ≡ all_within header_fields (header_values (header r)) }
{
    all_fit(record::header_widths(), header_numbers(r))
}

// Whether each value of words 3 to 10 is within its field.
fn fields_within(r: Record) -> bool
    ensures { result ≡ all_within (fields_of (kind_of r)) (field_values r) }
{
    all_fit(record::widths(kind::kind_of(r)), field_numbers(r))
}

// Whether the writer takes the record.
#[tactic(auto, unfolding(record::specs::Writable::writable, record::specs::Writable::within_fields))]
pub fn writable(r: Record) -> bool
    ensures { result ≡ Writable.writable r }
{
    header_within(r)
        && fields_within(r)
        && r.header().count <= LARGEST_COUNT
        && kind::of_its_kind(r)
}

// Refuses a record that the writer does not take.
#[tactic(auto, unfolding(crate::specs::Check::check_writable, answer::specs::Answer::refuse_if))]
pub fn check_writable(r: Record) -> Result<(), Refusal>
    ensures { answer_of result ≡ Check.check_writable r }
{
    if writable(r) {
        Ok(())
    } else {
        Err(Refusal::NotWritable)
    }
}
