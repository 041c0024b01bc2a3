// The orbit set: three held records that belong together and may be used.
ghost use Rattle.std.specs.Prelude.{◌≡◌};
ghost use Rattle.answer.specs.Answer.{answer_of};
ghost use Rattle.orbit_set.specs.Set as Set;

use crate::held::HeldSubframes;
use answer::Refusal;
use record::{Subframe1, Subframe2, Subframe3};

// A satellite's set (a term of document 01): its three held records.
#[derive(Clone, Copy)]
pub struct OrbitSet {
    pub subframe1: Subframe1,
    pub subframe2: Subframe2,
    pub subframe3: Subframe3,
}

// Whether the three records are of one issue. Of IODC the low eight bits are compared.
#[tactic(auto, unfolding(crate::specs::Set::one_issue))]
fn one_issue(set: OrbitSet) -> bool
    ensures { result ≡ Set.one_issue set }
{
    set.subframe1.iodc_low == set.subframe2.iode && set.subframe2.iode == set.subframe3.iode
}

// The first of the six health bits, the highest.
#[tactic(auto, unfolding(crate::specs::Set::first_health_bit, bits::specs::Bits::unpack))]
fn first_health_bit(r: Subframe1) -> u32
    ensures { result ≡ Set.first_health_bit r }
{
    r.health / 32 % 2
}

// Numbers 18 and 19.
#[tactic(auto, unfolding(crate::specs::Set::check_set, answer::specs::Answer::refuse_if))]
fn check_set(set: OrbitSet) -> Result<OrbitSet, Refusal>
    ensures { answer_of result ≡ Set.check_set set }
{
    if !one_issue(set) {
        return Err(Refusal::Issue);
    }
    let first = set.subframe1;
    if first_health_bit(first) == 1 {
        return Err(Refusal::Health(first.health as usize));
    }
    Ok(set)
}

// The set of the held subframes: number 17, then 18 and 19.
#[tactic(auto, unfolding(crate::specs::Set::set_in, answer::specs::Answer::when_held))]
pub fn set_in(held: HeldSubframes) -> Result<OrbitSet, Refusal>
    ensures { answer_of result ≡ Set.set_in held.subframe1 held.subframe2 held.subframe3 }
{
    let subframe1 = held.subframe1.ok_or(Refusal::SubframeNotHeld(1))?;
    let subframe2 = held.subframe2.ok_or(Refusal::SubframeNotHeld(2))?;
    let subframe3 = held.subframe3.ok_or(Refusal::SubframeNotHeld(3))?;
    check_set(OrbitSet {
        subframe1,
        subframe2,
        subframe3,
    })
}
