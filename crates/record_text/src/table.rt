// The names of the fields, with scales and units.
ghost use Rattle.std.specs.Prelude.{◌≡◌};
ghost use Rattle.record_text.specs.FieldLines.{field_lines};

// How many fields a header has: the first lines of the table.
pub const HEADER: usize = 6;

// A line for each field: its name, and, where document 01 gives a scale, the scale and the unit. A scale -k stands for 2^-k. The fields of the
// header come first, then those of each kind, in the order of its struct.
const FIELDS: [u8; 1051] = *b"message
reserved
count 6 s
flag18
flag19
subframe
week
l2_code
ura
health
iodc_high
l2p_flag
reserved4
reserved5
reserved6
reserved7
tgd -31 s
iodc_low
toc 16 s
af2 -55 s/s^2
af1 -43 s/s
af0 -31 s
iode
crs -5 m
delta_n -43 semicircles/s
m0 -31 semicircles
cuc -29 rad
e -33 dimensionless
cus -29 rad
root_a -19 m^1/2
toe 16 s
fit
aodo 900 s
cic -29 rad
node -31 semicircles
cis -29 rad
i0 -31 semicircles
crc -5 m
perigee -31 semicircles
node_rate -43 semicircles/s
iode
idot -43 semicircles/s
data_id
sv_id
e -21 dimensionless
toa 4096 s
delta_i -19 semicircles
node_rate -38 semicircles/s
health
root_a -11 m^1/2
node -23 semicircles
perigee -23 semicircles
m0 -23 semicircles
af0 -20 s
af1 -38 s/s
data_id
id
alpha0 -30 s
alpha1 -27 s/semicircle
alpha2 -24 s/semicircle^2
alpha3 -24 s/semicircle^3
beta0 2048 s
beta1 16384 s/semicircle
beta2 65536 s/semicircle^2
beta3 65536 s/semicircle^3
a1 -50 s/s
a0 -30 s
tot 4096 s
wnt
dtls
wnlsf
dn
dtlsf
reserved10
data_id
id
reserved3
reserved4
reserved5
reserved6
reserved7
reserved8
reserved9
reserved10
";

// The fields with their rule: scales and units are those of document 000's tables.
pub fn field_table() -> [u8; 1051]
    ensures { result ≡ field_lines }
{
    FIELDS
}
