// The widths of the fields, as tables of 19, which is the number of fields of the longest kind. Entries past the last field are 0. One size serves all: no heap.
ghost use Rattle.std.specs.Prelude.{◌≡◌};
ghost use Rattle.layout.specs.Table as Table;
ghost use Rattle.record.specs.Fields.{header_fields, fields_of};

use crate::kind::Kind;

// The fields of the longest kind, the UTC page.
pub const MOST_FIELDS: usize = 19;

const HEADER: [usize; MOST_FIELDS] = [14, 2, 17, 1, 1, 3, 0, 0, 0, 0, 0, 0, 0, 0, 0, 0, 0, 0, 0];

const SUBFRAME1: [usize; MOST_FIELDS] = [
    10, 2, 4, 6, 2, 1, 23, 24, 24, 16, 8, 8, 16, 8, 16, 22, 0, 0, 0,
];

const SUBFRAME2: [usize; MOST_FIELDS] = [
    8, 16, 16, 32, 16, 32, 16, 32, 16, 1, 5, 0, 0, 0, 0, 0, 0, 0, 0,
];

const SUBFRAME3: [usize; MOST_FIELDS] = [
    16, 32, 16, 32, 16, 32, 24, 8, 14, 0, 0, 0, 0, 0, 0, 0, 0, 0, 0,
];

const ALMANAC: [usize; MOST_FIELDS] = [
    2, 6, 16, 8, 16, 16, 8, 24, 24, 24, 24, 8, 11, 3, 0, 0, 0, 0, 0,
];

const UTC: [usize; MOST_FIELDS] = [2, 6, 8, 8, 8, 8, 8, 8, 8, 8, 24, 32, 8, 8, 8, 8, 8, 8, 14];

const OTHER: [usize; MOST_FIELDS] = [
    2, 6, 16, 24, 24, 24, 24, 24, 24, 22, 0, 0, 0, 0, 0, 0, 0, 0, 0,
];

// The widths of the header's fields.
#[tactic(auto, unfolding(layout::specs::Table::widths))]
pub fn header_widths() -> [usize; MOST_FIELDS]
    ensures { result ≡ Table.widths 19 header_fields }
{
    HEADER
}

// The widths of a kind's fields.
#[tactic(auto, unfolding(layout::specs::Table::widths))]
pub fn widths(kind: Kind) -> [usize; MOST_FIELDS]
    ensures { result ≡ Table.widths 19 (fields_of kind) }
{
    match kind {
        Kind::Subframe1 => SUBFRAME1,
        Kind::Subframe2 => SUBFRAME2,
        Kind::Subframe3 => SUBFRAME3,
        Kind::Almanac => ALMANAC,
        Kind::Utc => UTC,
        Kind::Other => OTHER,
    }
}
