// The kinds of record.
ghost use Rattle.std.specs.Prelude.{◌≡◌};
ghost use Rattle.record.specs.KindNumber.{number_of};

#[derive(Clone, Copy, Debug, PartialEq, Eq)]
pub enum Kind {
    Subframe1,
    Subframe2,
    Subframe3,
    Almanac,
    Utc,
    Other,
}

impl Kind {
    // Its number, for callers that have no enums of ours.
    #[tactic(auto, unfolding(crate::specs::KindNumber::number_of))]
    pub fn number(self) -> u8
        ensures { result ≡ number_of self }
    {
        match self {
            Kind::Subframe1 => 1,
            Kind::Subframe2 => 2,
            Kind::Subframe3 => 3,
            Kind::Almanac => 4,
            Kind::Utc => 5,
            Kind::Other => 6,
        }
    }
}
