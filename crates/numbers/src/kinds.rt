// The numbers that stand in a record's fields, in the order of the message. A signed value that is outside its field has a number outside its
// width. A function for each kind, since they differ in their fields.
ghost use Rattle.std.specs.Prelude.{◌≡◌};
ghost use Rattle.layout.specs.Table as Table;
ghost use Rattle.record.specs.Fields.{subframe1_fields, subframe2_fields, subframe3_fields, almanac_fields, utc_fields, other_fields, fields_of};
ghost use Rattle.record.specs.Record.{kind_of, subframe1_values, subframe2_values, subframe3_values, almanac_values, utc_values, other_values, field_values};

use crate::unsigned::unsigned_of;
use record::{
    AlmanacPage, MOST_FIELDS, OtherPage, Record, Subframe1, Subframe2, Subframe3, UtcPage,
};

fn subframe1_numbers(r: Subframe1) -> [u32; MOST_FIELDS]
    ensures { result ≡ Table.numbers 19 subframe1_fields (subframe1_values r) }
{
    [
        r.week,
        r.l2_code,
        r.ura,
        r.health,
        r.iodc_high,
        r.l2p_flag,
        r.reserved4,
        r.reserved5,
        r.reserved6,
        r.reserved7,
        unsigned_of(r.tgd, 8),
        r.iodc_low,
        r.toc,
        unsigned_of(r.af2, 8),
        unsigned_of(r.af1, 16),
        unsigned_of(r.af0, 22),
        0,
        0,
        0,
    ]
}

fn subframe2_numbers(r: Subframe2) -> [u32; MOST_FIELDS]
    ensures { result ≡ Table.numbers 19 subframe2_fields (subframe2_values r) }
{
    [
        r.iode,
        unsigned_of(r.crs, 16),
        unsigned_of(r.delta_n, 16),
        unsigned_of(r.m0, 32),
        unsigned_of(r.cuc, 16),
        r.e,
        unsigned_of(r.cus, 16),
        r.root_a,
        r.toe,
        r.fit,
        r.aodo,
        0,
        0,
        0,
        0,
        0,
        0,
        0,
        0,
    ]
}

fn subframe3_numbers(r: Subframe3) -> [u32; MOST_FIELDS]
    ensures { result ≡ Table.numbers 19 subframe3_fields (subframe3_values r) }
{
    [
        unsigned_of(r.cic, 16),
        unsigned_of(r.node, 32),
        unsigned_of(r.cis, 16),
        unsigned_of(r.i0, 32),
        unsigned_of(r.crc, 16),
        unsigned_of(r.perigee, 32),
        unsigned_of(r.node_rate, 24),
        r.iode,
        unsigned_of(r.idot, 14),
        0,
        0,
        0,
        0,
        0,
        0,
        0,
        0,
        0,
        0,
    ]
}

fn almanac_numbers(r: AlmanacPage) -> [u32; MOST_FIELDS]
    ensures { result ≡ Table.numbers 19 almanac_fields (almanac_values r) }
{
    let af0 = unsigned_of(r.af0, 11);
    [
        r.data_id,
        r.sv_id,
        r.e,
        r.toa,
        unsigned_of(r.delta_i, 16),
        unsigned_of(r.node_rate, 16),
        r.health,
        r.root_a,
        unsigned_of(r.node, 24),
        unsigned_of(r.perigee, 24),
        unsigned_of(r.m0, 24),
        af0 / 8,
        unsigned_of(r.af1, 11),
        af0 % 8,
        0,
        0,
        0,
        0,
        0,
    ]
}

fn utc_numbers(r: UtcPage) -> [u32; MOST_FIELDS]
    ensures { result ≡ Table.numbers 19 utc_fields (utc_values r) }
{
    [
        r.data_id,
        r.id,
        unsigned_of(r.alpha0, 8),
        unsigned_of(r.alpha1, 8),
        unsigned_of(r.alpha2, 8),
        unsigned_of(r.alpha3, 8),
        unsigned_of(r.beta0, 8),
        unsigned_of(r.beta1, 8),
        unsigned_of(r.beta2, 8),
        unsigned_of(r.beta3, 8),
        unsigned_of(r.a1, 24),
        unsigned_of(r.a0, 32),
        r.tot,
        r.wnt,
        unsigned_of(r.dtls, 8),
        r.wnlsf,
        r.dn,
        unsigned_of(r.dtlsf, 8),
        r.reserved10,
    ]
}

#[tactic(auto, unfolding(layout::specs::Table::numbers))]
fn other_numbers(r: OtherPage) -> [u32; MOST_FIELDS]
    ensures { result ≡ Table.numbers 19 other_fields (other_values r) }
{
    [
        r.data_id,
        r.id,
        r.reserved3,
        r.reserved4,
        r.reserved5,
        r.reserved6,
        r.reserved7,
        r.reserved8,
        r.reserved9,
        r.reserved10,
        0,
        0,
        0,
        0,
        0,
        0,
        0,
        0,
        0,
    ]
}

// The numbers of a record's fields of words 3 to 10.
#[tactic(auto)]
pub fn field_numbers(r: Record) -> [u32; MOST_FIELDS]
    ensures { result ≡ Table.numbers 19 (fields_of (kind_of r)) (field_values r) }
{
    match r {
        Record::Subframe1(s) => subframe1_numbers(s),
        Record::Subframe2(s) => subframe2_numbers(s),
        Record::Subframe3(s) => subframe3_numbers(s),
        Record::Almanac(s) => almanac_numbers(s),
        Record::Utc(s) => utc_numbers(s),
        Record::Other(s) => other_numbers(s),
    }
}
