// A number put as bits, a byte a bit, the highest first.
ghost use Rattle.std.specs.Prelude.{◌≡◌, ◌/◌, ◌%◌, ◌^◌};
ghost use Rattle.finite.specs.Tabulate.{tabulate};
ghost use Rattle.bits.specs.Bits.{unpack};

use crate::put::Cursor;

// Digit k of a number, the lowest being 0.
fn digit(n: u32, k: usize) -> u8
    ensures { result ≡ n / 2 ^ k % 2 }
{
    if k < 32 { ((n >> k) % 2) as u8 } else { 0 }
}

impl<'a> Cursor<'a> {
    ghost use Rattle.text.specs.Cursor.{Puts};

    // Puts the lowest `width` digits of a number.
    pub fn put_bits(&mut self, width: usize, n: u32)
        ensures { Puts self.old (tabulate width (unpack width n)) self.new }
    {
        for i in 0..width {
            self.put_byte(digit(n, width - 1 - i));
        }
    }
}
