// The values of a record: those of its header, then those of its own fields in the order of its struct, then zeros.
// The array's size is C's. A function for each kind, since they differ in their fields.
ghost use Rattle.std.specs.Prelude.{◌≡◌, ◌≤◌, length};
ghost use Rattle.values.specs.Values.{padded, header_then, values_of_subframe1, values_of_subframe2, values_of_subframe3, values_of_almanac, values_of_utc, values_of_other, values_of};

use record::{AlmanacPage, Header, OtherPage, Record, Subframe1, Subframe2, Subframe3, UtcPage};

// The values of a header, then a record's own, then zeros.
fn with_header(h: Header, own: &[i64]) -> [i64; 25]
    requires { length own.now ≤ 19 }
    ensures { result ≡ padded 25 (header_then h own.now) }
{
    let header = [
        i64::from(h.message),
        i64::from(h.reserved),
        i64::from(h.count),
        i64::from(h.flag18),
        i64::from(h.flag19),
        i64::from(h.subframe),
    ];
    let mut v = [0i64; 25];
    v[..6].copy_from_slice(&header);
    v[6..6 + own.len()].copy_from_slice(own);
    v
}

fn subframe1_values(r: Subframe1) -> [i64; 25]
    ensures { result ≡ values_of_subframe1 r }
{
    let own = [
        i64::from(r.week),
        i64::from(r.l2_code),
        i64::from(r.ura),
        i64::from(r.health),
        i64::from(r.iodc_high),
        i64::from(r.l2p_flag),
        i64::from(r.reserved4),
        i64::from(r.reserved5),
        i64::from(r.reserved6),
        i64::from(r.reserved7),
        i64::from(r.tgd),
        i64::from(r.iodc_low),
        i64::from(r.toc),
        i64::from(r.af2),
        i64::from(r.af1),
        i64::from(r.af0),
    ];
    with_header(r.header, &own)
}

fn subframe2_values(r: Subframe2) -> [i64; 25]
    ensures { result ≡ values_of_subframe2 r }
{
    let own = [
        i64::from(r.iode),
        i64::from(r.crs),
        i64::from(r.delta_n),
        i64::from(r.m0),
        i64::from(r.cuc),
        i64::from(r.e),
        i64::from(r.cus),
        i64::from(r.root_a),
        i64::from(r.toe),
        i64::from(r.fit),
        i64::from(r.aodo),
    ];
    with_header(r.header, &own)
}

fn subframe3_values(r: Subframe3) -> [i64; 25]
    ensures { result ≡ values_of_subframe3 r }
{
    let own = [
        i64::from(r.cic),
        i64::from(r.node),
        i64::from(r.cis),
        i64::from(r.i0),
        i64::from(r.crc),
        i64::from(r.perigee),
        i64::from(r.node_rate),
        i64::from(r.iode),
        i64::from(r.idot),
    ];
    with_header(r.header, &own)
}

fn almanac_values(r: AlmanacPage) -> [i64; 25]
    ensures { result ≡ values_of_almanac r }
{
    let own = [
        i64::from(r.data_id),
        i64::from(r.sv_id),
        i64::from(r.e),
        i64::from(r.toa),
        i64::from(r.delta_i),
        i64::from(r.node_rate),
        i64::from(r.health),
        i64::from(r.root_a),
        i64::from(r.node),
        i64::from(r.perigee),
        i64::from(r.m0),
        i64::from(r.af0),
        i64::from(r.af1),
    ];
    with_header(r.header, &own)
}

fn utc_values(r: UtcPage) -> [i64; 25]
    ensures { result ≡ values_of_utc r }
{
    let own = [
        i64::from(r.data_id),
        i64::from(r.id),
        i64::from(r.alpha0),
        i64::from(r.alpha1),
        i64::from(r.alpha2),
        i64::from(r.alpha3),
        i64::from(r.beta0),
        i64::from(r.beta1),
        i64::from(r.beta2),
        i64::from(r.beta3),
        i64::from(r.a1),
        i64::from(r.a0),
        i64::from(r.tot),
        i64::from(r.wnt),
        i64::from(r.dtls),
        i64::from(r.wnlsf),
        i64::from(r.dn),
        i64::from(r.dtlsf),
        i64::from(r.reserved10),
    ];
    with_header(r.header, &own)
}

fn other_values(r: OtherPage) -> [i64; 25]
    ensures { result ≡ values_of_other r }
{
    let own = [
        i64::from(r.data_id),
        i64::from(r.id),
        i64::from(r.reserved3),
        i64::from(r.reserved4),
        i64::from(r.reserved5),
        i64::from(r.reserved6),
        i64::from(r.reserved7),
        i64::from(r.reserved8),
        i64::from(r.reserved9),
        i64::from(r.reserved10),
    ];
    with_header(r.header, &own)
}

// The 25 values of a record.
#[tactic(auto, unfolding(crate::specs::Values::values_of))]
pub fn values_of(r: Record) -> [i64; 25]
    ensures { result ≡ values_of r }
{
    match r {
        Record::Subframe1(s) => subframe1_values(s),
        Record::Subframe2(s) => subframe2_values(s),
        Record::Subframe3(s) => subframe3_values(s),
        Record::Almanac(p) => almanac_values(p),
        Record::Utc(p) => utc_values(p),
        Record::Other(p) => other_values(p),
    }
}
