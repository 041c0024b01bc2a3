// The header of a record, from the numbers that stand in its fields and back to them.
#![tactic(auto)]

ghost use Rattle.std.specs.Prelude.{◌≡◌};
ghost use Rattle.layout.specs.Table as Table;
ghost use Rattle.layout.specs.Table.{values_from};
ghost use Rattle.record.specs.Fields.{header_fields};
ghost use Rattle.record.specs.Record.{header_of, header, header_values};

use record::{Header, MOST_FIELDS, Record};

// The header that has these numbers.
#[tactic(auto, unfolding(layout::specs::Table::values_from))]
pub fn header_from(n: [u32; MOST_FIELDS]) -> Header
    ensures { result ≡ header_of (values_from header_fields 0 n) }
{
    Header {
        message: n[0],
        reserved: n[1],
        count: n[2],
        flag18: n[3],
        flag19: n[4],
        subframe: n[5],
    }
}

// The numbers of the header.
#[tactic(auto, unfolding(layout::specs::Table::numbers))]
pub fn header_numbers(r: Record) -> [u32; MOST_FIELDS]
    ensures { result ≡ Table.numbers 19 header_fields (header_values (header r)) }
{
    let h = r.header();
    [
        h.message, h.reserved, h.count, h.flag18, h.flag19, h.subframe, 0, 0, 0, 0, 0, 0, 0, 0, 0,
        0, 0, 0, 0,
    ]
}
