// The numbers of satellites, which SV IDs share.
#![tactic(auto)]

ghost use Rattle.std.specs.Prelude.{◌≡◌};
ghost use Rattle.satellite_number.specs.Numbers as Numbers;

// Whether a number is that of a satellite, or an SV ID.
#[tactic(auto, unfolding(crate::specs::Numbers::is_satellite))]
pub fn is_satellite(n: usize) -> bool
    ensures { result ≡ Numbers.is_satellite n }
{
    (1..=32).contains(&n)
}
