// The polarity of a block: whether it was received as it was sent, or inverted throughout.
ghost use Rattle.std.specs.Prelude.{◌≡◌, ◌%◌};
ghost use Rattle.bits.specs.Bits.{bits_at};
ghost use Rattle.block.specs.Polarity.{start_bit, is_inverted, by_inverted};

#[derive(Clone, Copy, Debug, PartialEq, Eq)]
pub enum Polarity {
    Upright,
    Inverted,
}

impl Polarity {
    // Both bits of the start pair.
    pub fn start_bit(self) -> u32
        ensures { result ≡ start_bit self }
    {
        match self {
            Polarity::Upright => 0,
            Polarity::Inverted => 1,
        }
    }

    pub fn is_inverted(self) -> bool
        ensures { result ≡ is_inverted self }
    {
        self == Polarity::Inverted
    }
}

// From whether the block is inverted.
impl From<bool> for Polarity {
    ghost from_gives = { λ inverted polarity. polarity ≡ by_inverted inverted };

    fn from(inverted: bool) -> Polarity {
        if inverted {
            Polarity::Inverted
        } else {
            Polarity::Upright
        }
    }
}

// The polarity of the block at place p of a log, by the first bit of its start pair.
pub fn polarity_at(log: &[u8], p: usize) -> Polarity
    ensures { start_bit result ≡ bits_at log.now p 0 % 2 }
{
    if parity::bit_at(log, p, 0) == 0 {
        Polarity::Upright
    } else {
        Polarity::Inverted
    }
}
