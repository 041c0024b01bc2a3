// The bits of a log, and the window of a word packed into one number: P highest, then Q, then bits 1 to 30.
ghost use Rattle.std.specs.Prelude.{◌≡◌, ◌%◌};
ghost use Rattle.bits.specs.Bits.{bits_at, pack};

// The bit j places after p: its byte modulo 2, and 0 past the end.
pub fn bit_at(log: &[u8], p: usize, j: usize) -> u32
    ensures { result ≡ bits_at log.now p j % 2 }
{
    match log.get(p..).and_then(|rest| rest.get(j)) {
        Some(byte) => u32::from(*byte) % 2,
        None => 0,
    }
}

// The window at place p of a log, packed.
pub fn packed_window(log: &[u8], p: usize) -> u32
    ensures { result ≡ pack 32 (bits_at log.now p) }
{
    let mut window = 0;
    for j in 0..32 {
        window = window * 2 + bit_at(log, p, j);
    }
    window
}
