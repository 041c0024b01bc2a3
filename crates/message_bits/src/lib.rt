// The message of a record: its 240 source bits, with 0 for each filler.
#![tactic(auto)]

ghost use Rattle.std.specs.Prelude.{◌≡◌};
ghost use Rattle.finite.specs.Tabulate.{tabulate};
ghost use Rattle.text.specs.Cursor.{Puts};
ghost use Rattle.bits.specs.Bits.{Bits};
ghost use Rattle.layout.specs.Table.{offset};
ghost use Rattle.layout.specs.internal.Table.{StandIn};
ghost use Rattle.record.specs.Source.{header_bits, record_bits};
ghost use Rattle.message_bits.specs.Message.{message_of};

use record::{MOST_FIELDS, Record};
use text::Cursor;

// Writes numbers one after the other in these widths.
fn put_numbers(out: &mut Cursor<'_>, widths: [usize; MOST_FIELDS], n: [u32; MOST_FIELDS])
    ensures { (u : Bits) → StandIn 19 widths n u → Puts out.old (tabulate (offset widths 19) u) out.new }
{
    for (width, number) in widths.iter().zip(&n) {
        out.put_bits(*width, *number);
    }
}

// Writes the header.
fn put_header(out: &mut Cursor<'_>, r: Record)
    ensures { Puts out.old (tabulate 38 (header_bits r)) out.new }
{
    put_numbers(out, record::header_widths(), header::header_numbers(r));
}

// Writes the fields of words 3 to 10.
fn put_fields(out: &mut Cursor<'_>, r: Record)
    ensures { Puts out.old (tabulate 190 (record_bits r)) out.new }
{
    put_numbers(
        out,
        record::widths(kind::kind_of(r)),
        numbers::field_numbers(r),
    );
}

// The 240 source bits, with 0 for each filler.
pub fn message_of(r: Record) -> [u8; 240]
    ensures { result ≡ tabulate 240 (message_of r) }
{
    let mut message = [0u8; 240];
    let mut bits = Cursor::new(&mut message, 0);
    bits.put_bits(8, 0b10001011);
    put_header(&mut bits, r);
    bits.put_bits(2, 0);
    put_fields(&mut bits, r);
    bits.put_bits(2, 0);
    message
}
