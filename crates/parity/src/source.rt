// The source bits of a received word.
ghost use Rattle.std.specs.Prelude.{◌≡◌};
ghost use Rattle.bits.specs.Bits.{◌⊕◌, pack, unpack};
ghost use Rattle.parity.specs.Word.{source_bits};

// The 24 lowest digits of a number, each exclusive-or q.
fn exclusive_or_q(q: u32, bits: u32) -> u32
    ensures { result ≡ pack 24 (λ i. unpack 24 bits i ⊕ q) }
{
    if q % 2 == 1 {
        return 0xffffff - bits % 0x1000000;
    }
    bits % 0x1000000
}

// The 24 source bits of a packed window as one number, the first highest.
pub fn source_bits(window: u32) -> u32
    ensures { result ≡ source_bits (unpack 32 window) }
{
    exclusive_or_q(window / 0x40000000, window / 0x40)
}
