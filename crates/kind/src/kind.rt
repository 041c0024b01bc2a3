// Which kind a subframe is, by the three numbers of which the definitions speak, and which kind a record is of.
ghost use Rattle.std.specs.Prelude.{◌≡◌, true};
ghost use Rattle.record.specs.Kind.{is_page, is_almanac, is_utc, is_other, is_of_kind};
ghost use Rattle.record.specs.Record.{kind_of};
ghost use Rattle.record.specs.Writable.{of_its_kind};

use record::{Kind, Record};

// Whether a subframe with this number holds a page.
#[tactic(auto, unfolding(record::specs::Kind::is_page))]
fn is_page(subframe: u32) -> bool
    ensures { result ≡ is_page subframe }
{
    matches!(subframe, 4 | 5)
}

// Whether a page with this data ID field and ID is an almanac page.
#[tactic(auto, unfolding(record::specs::Kind::is_almanac))]
fn is_almanac(subframe: u32, data_id: u32, id: u32) -> bool
    ensures { result ≡ is_almanac subframe data_id id }
{
    is_page(subframe) && data_id == 1 && matches!(id, 1..=32)
}

// Whether it is the UTC page.
#[tactic(auto, unfolding(record::specs::Kind::is_utc))]
fn is_utc(subframe: u32, data_id: u32, id: u32) -> bool
    ensures { result ≡ is_utc subframe data_id id }
{
    subframe == 4 && data_id == 1 && id == 56
}

// Whether a page with this data ID field and ID is neither an almanac page nor the UTC page.
#[tactic(auto, unfolding(record::specs::Kind::is_other))]
fn is_other(subframe: u32, data_id: u32, id: u32) -> bool
    ensures { result ≡ is_other subframe data_id id }
{
    is_page(subframe) && !is_almanac(subframe, data_id, id) && !is_utc(subframe, data_id, id)
}

// The kind that a subframe is of by its number, its data ID field and its ID; it is of exactly one. Only subframes 4 and 5 have the two; numbers
// outside 1 to 5 are the block check's question.
#[tactic(auto, unfolding(record::specs::Kind::is_of_kind))]
pub fn kind_for(subframe: u32, data_id: u32, id: u32) -> Kind
    ensures { is_of_kind result subframe data_id id ≡ true }
{
    match subframe {
        1 => Kind::Subframe1,
        2 => Kind::Subframe2,
        3 => Kind::Subframe3,
        _ if is_almanac(subframe, data_id, id) => Kind::Almanac,
        _ if is_utc(subframe, data_id, id) => Kind::Utc,
        _ => Kind::Other,
    }
}

pub fn kind_of(r: Record) -> Kind
    ensures { result ≡ kind_of r }
{
    match r {
        Record::Subframe1(_) => Kind::Subframe1,
        Record::Subframe2(_) => Kind::Subframe2,
        Record::Subframe3(_) => Kind::Subframe3,
        Record::Almanac(_) => Kind::Almanac,
        Record::Utc(_) => Kind::Utc,
        Record::Other(_) => Kind::Other,
    }
}

// Whether the subframe number and the IDs are those of the record's kind.
#[tactic(auto, unfolding(record::specs::Writable::of_its_kind))]
pub fn of_its_kind(r: Record) -> bool
    ensures { result ≡ of_its_kind r }
{
    match r {
        Record::Subframe1(s) => s.header.subframe == 1,
        Record::Subframe2(s) => s.header.subframe == 2,
        Record::Subframe3(s) => s.header.subframe == 3,
        Record::Almanac(p) => is_almanac(p.header.subframe, p.data_id, p.sv_id),
        Record::Utc(p) => is_utc(p.header.subframe, p.data_id, p.id),
        Record::Other(p) => is_other(p.header.subframe, p.data_id, p.id),
    }
}
