// The encoder: the word for a pair and 24 source bits, as a packed window. The pair is two numbers, as the definitions have it. Of a number that stands for a bit only whether it is odd counts,
// and of one that stands for source bits the lowest 24 digits.
ghost use Rattle.std.specs.Prelude.{◌≡◌, ◌*◌};
ghost use Rattle.bits.specs.Bits.{pack};
ghost use Rattle.encoder.specs.Encode.{source_of, data_bits, encode, encode_ending};

// The window with zeros for bits 25 to 30. Source bits are sent exclusive-or Q, as received bits are read: `source_bits` does both.
fn data_window(p: u32, q: u32, source: u32) -> u32
    ensures { result ≡ pack 26 (data_bits p q (source_of source)) * 64 }
{
    let sent = parity::source_bits(q % 2 * 0x40000000 + source % 0x1000000 * 0x40);
    p % 2 * 0x80000000 + q % 2 * 0x40000000 + sent * 0x40
}

// The word for the pair p, q and the source bits.
pub fn encode_word(p: u32, q: u32, source: u32) -> u32
    ensures { result ≡ pack 32 (encode p q (source_of source)) }
{
    let window = data_window(p, q, source);
    window + parity::syndrome_of(window)
}

// The word for the pair p, q and source bits 1 to 22, with the fillers that end it with a and b.
pub fn encode_ending(p: u32, q: u32, source: u32, a: u32, b: u32) -> u32
    ensures { result ≡ pack 32 (encode_ending p q (source_of source) a b) }
{
    let zeros = source - source % 4;
    let word = encode_word(p, q, zeros);
    let filler24 = (word / 2 + a % 2) % 2;
    let filler23 = (word % 2 + b % 2 + filler24) % 2;
    encode_word(p, q, zeros + filler23 * 2 + filler24)
}
