// What is put stands from an index on, as far as the buffer has room. The buffer is the caller's, since the library has no heap: a String would be the
// form otherwise.
ghost use Rattle.std.specs.Prelude.{◌≡◌, [], ◌∷◌, ◌++◌};
ghost use Rattle.text.specs.Text.{ascii, decimal, refusal_line};

// A buffer that the caller lends, and the index after what is put into it.
#[derive(Drop)]
pub struct Cursor<'a> {
    out: &'a mut [u8],
    at: usize,
}

impl<'a> Cursor<'a> {
    ghost use Rattle.text.specs.Cursor.{Puts};

    pub fn new(out: &'a mut [u8], at: usize) -> Cursor<'a>
        ensures same_buffer { result.out.ghost_name ≡ out.entry.ghost_name }
        ensures bytes { result.out.now ≡ out.old }
        ensures index { result.at ≡ at }
    {
        Cursor { out, at }
    }

    pub fn at(&self) -> usize
        ensures { result ≡ self.now.at }
    {
        self.at
    }

    pub fn put_byte(&mut self, b: u8)
        ensures { Puts self.old (b ∷ []) self.new }
    {
        if self.at < self.out.len() {
            self.out[self.at] = b;
            self.at += 1;
        }
    }

    // Puts a number in decimal: the digits before the last, then the last.
    pub fn put_decimal(&mut self, n: usize)
        ensures { Puts self.old (decimal n) self.new }
    {
        let digit = (48 + n % 10) as u8;
        if n < 10 {
            self.put_byte(digit);
            return;
        }
        self.put_decimal(n / 10);
        self.put_byte(digit);
    }

    // Puts a number and a tab.
    pub fn put_field(&mut self, n: usize)
        ensures { Puts self.old (decimal n ++ ascii "\t") self.new }
    {
        self.put_decimal(n);
        self.put_byte(b'\t');
    }

    pub fn put_text(&mut self, text: &[u8])
        ensures { Puts self.old text.now self.new }
    {
        for byte in text {
            self.put_byte(*byte);
        }
    }

    // Puts the line of a refusal, `refused`, a tab and its number: a number and no Refusal, since this crate stands below that of refusals.
    pub fn put_refusal(&mut self, number: u8)
        ensures { Puts self.old (refusal_line number) self.new }
    {
        self.put_text(b"refused\t");
        self.put_decimal(number as usize);
        self.put_byte(b'\n');
    }
}
