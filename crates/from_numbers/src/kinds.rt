// A record from the numbers that stand in its fields, in the order of the message. A function for each kind, since they differ in their fields.
ghost use Rattle.std.specs.Prelude.{◌≡◌};
ghost use Rattle.layout.specs.Table.{values_from};
ghost use Rattle.record.specs.Fields.{subframe1_fields, subframe2_fields, subframe3_fields, almanac_fields, utc_fields, other_fields, fields_of};
ghost use Rattle.record.specs.Record.{subframe1_of, subframe2_of, subframe3_of, almanac_of, utc_of, other_of, record_with};

use crate::signed::signed_of;
use record::{
    AlmanacPage, Header, Kind, MOST_FIELDS, OtherPage, Record, Subframe1, Subframe2, Subframe3,
    UtcPage,
};

fn subframe1_from(header: Header, n: &[u32; MOST_FIELDS]) -> Subframe1
    ensures { result ≡ subframe1_of header (values_from subframe1_fields 0 n.now) }
{
    Subframe1 {
        header,
        week: n[0],
        l2_code: n[1],
        ura: n[2],
        health: n[3],
        iodc_high: n[4],
        l2p_flag: n[5],
        reserved4: n[6],
        reserved5: n[7],
        reserved6: n[8],
        reserved7: n[9],
        tgd: signed_of(n[10], 8),
        iodc_low: n[11],
        toc: n[12],
        af2: signed_of(n[13], 8),
        af1: signed_of(n[14], 16),
        af0: signed_of(n[15], 22),
    }
}

fn subframe2_from(header: Header, n: &[u32; MOST_FIELDS]) -> Subframe2
    ensures { result ≡ subframe2_of header (values_from subframe2_fields 0 n.now) }
{
    Subframe2 {
        header,
        iode: n[0],
        crs: signed_of(n[1], 16),
        delta_n: signed_of(n[2], 16),
        m0: signed_of(n[3], 32),
        cuc: signed_of(n[4], 16),
        e: n[5],
        cus: signed_of(n[6], 16),
        root_a: n[7],
        toe: n[8],
        fit: n[9],
        aodo: n[10],
    }
}

fn subframe3_from(header: Header, n: &[u32; MOST_FIELDS]) -> Subframe3
    ensures { result ≡ subframe3_of header (values_from subframe3_fields 0 n.now) }
{
    Subframe3 {
        header,
        cic: signed_of(n[0], 16),
        node: signed_of(n[1], 32),
        cis: signed_of(n[2], 16),
        i0: signed_of(n[3], 32),
        crc: signed_of(n[4], 16),
        perigee: signed_of(n[5], 32),
        node_rate: signed_of(n[6], 24),
        iode: n[7],
        idot: signed_of(n[8], 14),
    }
}

fn almanac_from(header: Header, n: &[u32; MOST_FIELDS]) -> AlmanacPage
    ensures { result ≡ almanac_of header (values_from almanac_fields 0 n.now) }
{
    AlmanacPage {
        header,
        data_id: n[0],
        sv_id: n[1],
        e: n[2],
        toa: n[3],
        delta_i: signed_of(n[4], 16),
        node_rate: signed_of(n[5], 16),
        health: n[6],
        root_a: n[7],
        node: signed_of(n[8], 24),
        perigee: signed_of(n[9], 24),
        m0: signed_of(n[10], 24),
        af0: signed_of(n[11] % 256 * 8 + n[13] % 8, 11),
        af1: signed_of(n[12], 11),
    }
}

fn utc_from(header: Header, n: &[u32; MOST_FIELDS]) -> UtcPage
    ensures { result ≡ utc_of header (values_from utc_fields 0 n.now) }
{
    UtcPage {
        header,
        data_id: n[0],
        id: n[1],
        alpha0: signed_of(n[2], 8),
        alpha1: signed_of(n[3], 8),
        alpha2: signed_of(n[4], 8),
        alpha3: signed_of(n[5], 8),
        beta0: signed_of(n[6], 8),
        beta1: signed_of(n[7], 8),
        beta2: signed_of(n[8], 8),
        beta3: signed_of(n[9], 8),
        a1: signed_of(n[10], 24),
        a0: signed_of(n[11], 32),
        tot: n[12],
        wnt: n[13],
        dtls: signed_of(n[14], 8),
        wnlsf: n[15],
        dn: n[16],
        dtlsf: signed_of(n[17], 8),
        reserved10: n[18],
    }
}

#[tactic(auto, unfolding(layout::specs::Table::values_from))]
fn other_from(header: Header, n: &[u32; MOST_FIELDS]) -> OtherPage
    ensures { result ≡ other_of header (values_from other_fields 0 n.now) }
{
    OtherPage {
        header,
        data_id: n[0],
        id: n[1],
        reserved3: n[2],
        reserved4: n[3],
        reserved5: n[4],
        reserved6: n[5],
        reserved7: n[6],
        reserved8: n[7],
        reserved9: n[8],
        reserved10: n[9],
    }
}

// The record of a kind whose fields hold these numbers. Of a number for a signed field, one past its width reads as -1; of the two parts of
// the almanac's af0 only the bits within their widths count.
pub fn record_from(kind: Kind, header: Header, n: [u32; MOST_FIELDS]) -> Record
    ensures { result ≡ record_with kind header (values_from (fields_of kind) 0 n) }
{
    match kind {
        Kind::Subframe1 => Record::Subframe1(subframe1_from(header, &n)),
        Kind::Subframe2 => Record::Subframe2(subframe2_from(header, &n)),
        Kind::Subframe3 => Record::Subframe3(subframe3_from(header, &n)),
        Kind::Almanac => Record::Almanac(almanac_from(header, &n)),
        Kind::Utc => Record::Utc(utc_from(header, &n)),
        Kind::Other => Record::Other(other_from(header, &n)),
    }
}
