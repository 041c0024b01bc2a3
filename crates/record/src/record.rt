// The records: six kinds of subframe, each with the header of words 1 and 2 and the fields of words 3 to 10 in document 01's order.
// An unsigned field is a u32 and a signed one an i32, the whole number that stands in the message. Beside it are its bits and, where it has
// a scale, the value of 1 in it with its unit. A field that the message reserves is named for its word.

ghost use Rattle.std.specs.Prelude.{◌≡◌};
ghost use Rattle.record.specs.Record.{header};

// Words 1 and 2 after the preamble.
#[derive(Clone, Copy, Debug, PartialEq, Eq)]
pub struct Header {
    pub message: u32, // 14 bits
    pub reserved: u32, // 2 bits
    pub count: u32, // 17 bits, 6 s
    pub flag18: u32, // 1 bit
    pub flag19: u32, // 1 bit
    pub subframe: u32, // 3 bits
}

// Subframe 1: week, health and clock.
#[derive(Clone, Copy, Debug, PartialEq, Eq)]
pub struct Subframe1 {
    pub header: Header,
    pub week: u32, // 10 bits
    pub l2_code: u32, // 2 bits
    pub ura: u32, // 4 bits
    pub health: u32, // 6 bits
    pub iodc_high: u32, // 2 bits
    pub l2p_flag: u32, // 1 bit
    pub reserved4: u32, // 23 bits
    pub reserved5: u32, // 24 bits
    pub reserved6: u32, // 24 bits
    pub reserved7: u32, // 16 bits
    pub tgd: i32, // 8 bits signed, 2^-31 s
    pub iodc_low: u32, // 8 bits
    pub toc: u32, // 16 bits, 2^4 s
    pub af2: i32, // 8 bits signed, 2^-55 s/s^2
    pub af1: i32, // 16 bits signed, 2^-43 s/s
    pub af0: i32, // 22 bits signed, 2^-31 s
}

// Subframe 2: the first half of the ephemeris.
#[derive(Clone, Copy, Debug, PartialEq, Eq)]
pub struct Subframe2 {
    pub header: Header,
    pub iode: u32, // 8 bits
    pub crs: i32, // 16 bits signed, 2^-5 m
    pub delta_n: i32, // 16 bits signed, 2^-43 semicircles/s
    pub m0: i32, // 32 bits signed, 2^-31 semicircles
    pub cuc: i32, // 16 bits signed, 2^-29 rad
    pub e: u32, // 32 bits, 2^-33
    pub cus: i32, // 16 bits signed, 2^-29 rad
    pub root_a: u32, // 32 bits, 2^-19 m^1/2
    pub toe: u32, // 16 bits, 2^4 s
    pub fit: u32, // 1 bit
    pub aodo: u32, // 5 bits, 900 s
}

// Subframe 3: the second half of the ephemeris.
#[derive(Clone, Copy, Debug, PartialEq, Eq)]
pub struct Subframe3 {
    pub header: Header,
    pub cic: i32, // 16 bits signed, 2^-29 rad
    pub node: i32, // 32 bits signed, 2^-31 semicircles
    pub cis: i32, // 16 bits signed, 2^-29 rad
    pub i0: i32, // 32 bits signed, 2^-31 semicircles
    pub crc: i32, // 16 bits signed, 2^-5 m
    pub perigee: i32, // 32 bits signed, 2^-31 semicircles
    pub node_rate: i32, // 24 bits signed, 2^-43 semicircles/s
    pub iode: u32, // 8 bits
    pub idot: i32, // 14 bits signed, 2^-43 semicircles/s
}

// An almanac page. The message has af0 in two parts, before and after af1; here it is one value.
#[derive(Clone, Copy, Debug, PartialEq, Eq)]
pub struct AlmanacPage {
    pub header: Header,
    pub data_id: u32, // 2 bits
    pub sv_id: u32, // 6 bits
    pub e: u32, // 16 bits, 2^-21
    pub toa: u32, // 8 bits, 2^12 s
    pub delta_i: i32, // 16 bits signed, 2^-19 semicircles
    pub node_rate: i32, // 16 bits signed, 2^-38 semicircles/s
    pub health: u32, // 8 bits
    pub root_a: u32, // 24 bits, 2^-11 m^1/2
    pub node: i32, // 24 bits signed, 2^-23 semicircles
    pub perigee: i32, // 24 bits signed, 2^-23 semicircles
    pub m0: i32, // 24 bits signed, 2^-23 semicircles
    pub af0: i32, // 11 bits signed (8 and 3), 2^-20 s
    pub af1: i32, // 11 bits signed, 2^-38 s/s
}

// The UTC page, with the ionospheric terms.
#[derive(Clone, Copy, Debug, PartialEq, Eq)]
pub struct UtcPage {
    pub header: Header,
    pub data_id: u32, // 2 bits
    pub id: u32, // 6 bits
    pub alpha0: i32, // 8 bits signed, 2^-30 s
    pub alpha1: i32, // 8 bits signed, 2^-27 s/semicircle
    pub alpha2: i32, // 8 bits signed, 2^-24 s/semicircle^2
    pub alpha3: i32, // 8 bits signed, 2^-24 s/semicircle^3
    pub beta0: i32, // 8 bits signed, 2^11 s
    pub beta1: i32, // 8 bits signed, 2^14 s/semicircle
    pub beta2: i32, // 8 bits signed, 2^16 s/semicircle^2
    pub beta3: i32, // 8 bits signed, 2^16 s/semicircle^3
    pub a1: i32, // 24 bits signed, 2^-50 s/s
    pub a0: i32, // 32 bits signed, 2^-30 s
    pub tot: u32, // 8 bits, 2^12 s
    pub wnt: u32, // 8 bits
    pub dtls: i32, // 8 bits signed, 1 s
    pub wnlsf: u32, // 8 bits
    pub dn: u32, // 8 bits
    pub dtlsf: i32, // 8 bits signed, 1 s
    pub reserved10: u32, // 14 bits
}

// Each other page of subframes 4 and 5.
#[derive(Clone, Copy, Debug, PartialEq, Eq)]
pub struct OtherPage {
    pub header: Header,
    pub data_id: u32, // 2 bits
    pub id: u32, // 6 bits
    pub reserved3: u32, // 16 bits
    pub reserved4: u32, // 24 bits
    pub reserved5: u32, // 24 bits
    pub reserved6: u32, // 24 bits
    pub reserved7: u32, // 24 bits
    pub reserved8: u32, // 24 bits
    pub reserved9: u32, // 24 bits
    pub reserved10: u32, // 22 bits
}

#[derive(Clone, Copy, Debug, PartialEq, Eq)]
pub enum Record {
    Subframe1(Subframe1),
    Subframe2(Subframe2),
    Subframe3(Subframe3),
    Almanac(AlmanacPage),
    Utc(UtcPage),
    Other(OtherPage),
}

impl Record {
    // The header, which each kind has.
    pub fn header(self) -> Header
        ensures { result ≡ header self }
    {
        match self {
            Record::Subframe1(s) => s.header,
            Record::Subframe2(s) => s.header,
            Record::Subframe3(s) => s.header,
            Record::Almanac(p) => p.header,
            Record::Utc(p) => p.header,
            Record::Other(p) => p.header,
        }
    }
}
