// The record of a kind with these values. A value that the field's 32 bits do not hold gives 0 there.
// A function for each kind, since they differ in their fields.
ghost use Rattle.std.specs.Prelude.{◌≡◌};
ghost use Rattle.from_values.specs.FromValues.{header_from, subframe1_from, subframe2_from, subframe3_from, almanac_from, utc_from, other_from, record_from};

use crate::numbers::{natural_at, whole_at};
use record::{AlmanacPage, Header, OtherPage, Record, Subframe1, Subframe2, Subframe3, UtcPage};

fn header_from(v: &[i64; 25]) -> Header
    ensures { result ≡ header_from v.now }
{
    Header {
        message: natural_at(v, 0),
        reserved: natural_at(v, 1),
        count: natural_at(v, 2),
        flag18: natural_at(v, 3),
        flag19: natural_at(v, 4),
        subframe: natural_at(v, 5),
    }
}

pub(crate) fn subframe1_from(v: &[i64; 25]) -> Subframe1
    ensures { result ≡ subframe1_from v.now }
{
    Subframe1 {
        header: header_from(v),
        week: natural_at(v, 6),
        l2_code: natural_at(v, 7),
        ura: natural_at(v, 8),
        health: natural_at(v, 9),
        iodc_high: natural_at(v, 10),
        l2p_flag: natural_at(v, 11),
        reserved4: natural_at(v, 12),
        reserved5: natural_at(v, 13),
        reserved6: natural_at(v, 14),
        reserved7: natural_at(v, 15),
        tgd: whole_at(v, 16),
        iodc_low: natural_at(v, 17),
        toc: natural_at(v, 18),
        af2: whole_at(v, 19),
        af1: whole_at(v, 20),
        af0: whole_at(v, 21),
    }
}

fn subframe2_from(v: &[i64; 25]) -> Subframe2
    ensures { result ≡ subframe2_from v.now }
{
    Subframe2 {
        header: header_from(v),
        iode: natural_at(v, 6),
        crs: whole_at(v, 7),
        delta_n: whole_at(v, 8),
        m0: whole_at(v, 9),
        cuc: whole_at(v, 10),
        e: natural_at(v, 11),
        cus: whole_at(v, 12),
        root_a: natural_at(v, 13),
        toe: natural_at(v, 14),
        fit: natural_at(v, 15),
        aodo: natural_at(v, 16),
    }
}

fn subframe3_from(v: &[i64; 25]) -> Subframe3
    ensures { result ≡ subframe3_from v.now }
{
    Subframe3 {
        header: header_from(v),
        cic: whole_at(v, 6),
        node: whole_at(v, 7),
        cis: whole_at(v, 8),
        i0: whole_at(v, 9),
        crc: whole_at(v, 10),
        perigee: whole_at(v, 11),
        node_rate: whole_at(v, 12),
        iode: natural_at(v, 13),
        idot: whole_at(v, 14),
    }
}

fn almanac_from(v: &[i64; 25]) -> AlmanacPage
    ensures { result ≡ almanac_from v.now }
{
    AlmanacPage {
        header: header_from(v),
        data_id: natural_at(v, 6),
        sv_id: natural_at(v, 7),
        e: natural_at(v, 8),
        toa: natural_at(v, 9),
        delta_i: whole_at(v, 10),
        node_rate: whole_at(v, 11),
        health: natural_at(v, 12),
        root_a: natural_at(v, 13),
        node: whole_at(v, 14),
        perigee: whole_at(v, 15),
        m0: whole_at(v, 16),
        af0: whole_at(v, 17),
        af1: whole_at(v, 18),
    }
}

pub(crate) fn utc_from(v: &[i64; 25]) -> UtcPage
    ensures { result ≡ utc_from v.now }
{
    UtcPage {
        header: header_from(v),
        data_id: natural_at(v, 6),
        id: natural_at(v, 7),
        alpha0: whole_at(v, 8),
        alpha1: whole_at(v, 9),
        alpha2: whole_at(v, 10),
        alpha3: whole_at(v, 11),
        beta0: whole_at(v, 12),
        beta1: whole_at(v, 13),
        beta2: whole_at(v, 14),
        beta3: whole_at(v, 15),
        a1: whole_at(v, 16),
        a0: whole_at(v, 17),
        tot: natural_at(v, 18),
        wnt: natural_at(v, 19),
        dtls: whole_at(v, 20),
        wnlsf: natural_at(v, 21),
        dn: natural_at(v, 22),
        dtlsf: whole_at(v, 23),
        reserved10: natural_at(v, 24),
    }
}

fn other_from(v: &[i64; 25]) -> OtherPage
    ensures { result ≡ other_from v.now }
{
    OtherPage {
        header: header_from(v),
        data_id: natural_at(v, 6),
        id: natural_at(v, 7),
        reserved3: natural_at(v, 8),
        reserved4: natural_at(v, 9),
        reserved5: natural_at(v, 10),
        reserved6: natural_at(v, 11),
        reserved7: natural_at(v, 12),
        reserved8: natural_at(v, 13),
        reserved9: natural_at(v, 14),
        reserved10: natural_at(v, 15),
    }
}

// The record of the kind with C's number: 1 to 3 for a subframe 1 to 3, 4 for an almanac page, 5 for the UTC page, and an other page else.
pub(crate) fn record_from(kind: u8, v: &[i64; 25]) -> Record
    ensures { result ≡ record_from kind v.now }
{
    match kind {
        1 => Record::Subframe1(subframe1_from(v)),
        2 => Record::Subframe2(subframe2_from(v)),
        3 => Record::Subframe3(subframe3_from(v)),
        4 => Record::Almanac(almanac_from(v)),
        5 => Record::Utc(utc_from(v)),
        _ => Record::Other(other_from(v)),
    }
}
