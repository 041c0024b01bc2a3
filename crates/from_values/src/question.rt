// The record that has given values: of a kind by its number, a subframe 1, or the UTC page.
ghost use Rattle.std.specs.Prelude.{◌≡◌, not};
ghost use Rattle.answer.specs.Answer.{accepted, refuse_if, answer_of};
ghost use Rattle.from_values.specs.FromValues as FromValues;
ghost use Rattle.from_values.specs.FromValues.{same_values, is_kind_number};

use crate::kinds::{record_from, subframe1_from, utc_from};
use answer::Refusal;
use record::{Record, Subframe1, UtcPage};
use values::values_of;

fn same_values(v: &[i64; 25], w: &[i64; 25]) -> bool
    ensures { result ≡ same_values v.now w.now }
{
    v == w
}

// Where its own values are v: r, and refusal 11 otherwise.
#[tactic(auto, unfolding(answer::specs::Answer::refuse_if))]
fn having<T: Copy>(r: T, own: [i64; 25], v: &[i64; 25]) -> Result<T, Refusal>
    ensures { answer_of result ≡ refuse_if (not (same_values own v.now)) 11 0 (accepted r) }
{
    if same_values(&own, v) {
        Ok(r)
    } else {
        Err(Refusal::NotWritable)
    }
}

#[tactic(auto, unfolding(crate::specs::FromValues::is_kind_number))]
fn is_kind_number(kind: u8) -> bool
    ensures { result ≡ is_kind_number kind }
{
    matches!(kind, 1..=6)
}

// The record of the kind with this number that has these values, or refusal 11 where there is none. The number is C's, so any may come.
#[tactic(auto, unfolding(crate::specs::FromValues::record_with, answer::specs::Answer::refuse_if))]
pub fn record_with(kind: u8, v: &[i64; 25]) -> Result<Record, Refusal>
    ensures { answer_of result ≡ FromValues.record_with kind v.now }
{
    if !is_kind_number(kind) {
        return Err(Refusal::NotWritable);
    }
    let r = record_from(kind, v);
    having(r, values_of(r), v)
}

// The subframe 1 that has these values, which is asked for by its type, or refusal 11 where there is none.
pub fn subframe1_with(v: &[i64; 25]) -> Result<Subframe1, Refusal>
    ensures { answer_of result ≡ FromValues.subframe1_with v.now }
{
    let r = subframe1_from(v);
    having(r, values_of(Record::Subframe1(r)), v)
}

// The UTC page that has these values, or refusal 11 where there is none.
pub fn utc_page_with(v: &[i64; 25]) -> Result<UtcPage, Refusal>
    ensures { answer_of result ≡ FromValues.utc_page_with v.now }
{
    let r = utc_from(v);
    having(r, values_of(Record::Utc(r)), v)
}
