// Texts that are equal, and the lines of a table by the name that they begin with.
ghost use Rattle.std.specs.Prelude.{◌≡◌, ◌+◌, unwrap_or};
ghost use Rattle.lines.specs.Words as Words;

use crate::words::{line, word};

// Whether two texts are equal.
#[tactic(auto, using(crate::proofs::laws::Words::same_pointwise))]
pub fn same(a: &[u8], b: &[u8]) -> bool
    ensures { result ≡ Words.same a.now b.now }
{
    a == b
}

// The first word of line first + i of a table. A line whose number is past the largest usize is empty: a table has no more lines than bytes.
fn name_at<'a>(table: &'a [u8], first: usize, i: usize) -> &'a [u8]
    ensures { result.now ≡ Words.name_at table.now (first + i) }
{
    match first.checked_add(i) {
        Some(number) => word(line(table, number), 0),
        None => &table[..0],
    }
}

// The least i below count for which the first word of line first + i of the table is the name. None where there is no such line.
pub fn named(table: &[u8], name: &[u8], first: usize, count: usize) -> Option<usize>
    ensures line { result ≡ Words.named_line table.now name.now first count }
    ensures number { unwrap_or result count ≡ Words.named table.now name.now first count }
{
    (0..count).find(|i| same(name_at(table, first, *i), name))
}
