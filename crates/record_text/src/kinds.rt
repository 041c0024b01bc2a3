// The kinds by their names, and the lines of the table of fields that each has.
ghost use Rattle.std.specs.Prelude.{◌≡◌};
ghost use Rattle.record_text.specs.Kinds as Kinds;
ghost use Rattle.record_text.specs.Kinds.{first_line, end_line};

use record::Kind;
use std::ops::Range;

// The name of a kind: a function with a contract, which a Display has not.
#[tactic(auto, unfolding(crate::specs::Kinds::kind_name, text::specs::Text::ascii))]
pub fn kind_name(kind: Kind) -> &'static str
    ensures { result.now ≡ Kinds.kind_name kind }
{
    match kind {
        Kind::Subframe1 => "subframe1",
        Kind::Subframe2 => "subframe2",
        Kind::Subframe3 => "subframe3",
        Kind::Almanac => "almanac",
        Kind::Utc => "utc",
        Kind::Other => "other",
    }
}

const KINDS: [Kind; 6] = [
    Kind::Subframe1,
    Kind::Subframe2,
    Kind::Subframe3,
    Kind::Almanac,
    Kind::Utc,
    Kind::Other,
];

// The kind with this name.
pub fn kind_named(name: &[u8]) -> Option<Kind>
    ensures { result ≡ Kinds.kind_named name.now }
{
    KINDS
        .iter()
        .copied()
        .find(|kind| lines::same(kind_name(*kind).as_bytes(), name))
}

// The lines of a kind's own fields in the table of fields.
#[tactic(auto, unfolding(crate::specs::Kinds::first_line, crate::specs::Kinds::end_line, crate::specs::Kinds::count, crate::specs::FieldLines::names_of))]
pub fn own_lines(kind: Kind) -> Range<usize>
    ensures first { result.start ≡ first_line kind }
    ensures end { result.end ≡ end_line kind }
{
    match kind {
        Kind::Subframe1 => 6..22,
        Kind::Subframe2 => 22..33,
        Kind::Subframe3 => 33..42,
        Kind::Almanac => 42..55,
        Kind::Utc => 55..74,
        Kind::Other => 74..84,
    }
}
