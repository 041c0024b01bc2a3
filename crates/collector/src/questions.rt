// The questions for the orbit set of a satellite, an almanac page and the UTC page. A set is worked out of the held records at each question;
// none is kept.
ghost use Rattle.std.specs.Prelude.{◌≡◌, cond, Some, None};
ghost use Rattle.satellite_number.specs.Numbers.{is_satellite};
ghost use Rattle.answer.specs.Answer.{answer_of};
ghost use Rattle.collector.specs.Held.{satellite_of};
ghost use Rattle.collector.specs.Questions as Questions;

use crate::held::Collector;
use answer::Refusal;
use orbit_set::{HeldSubframes, OrbitSet, set_in};
use record::{AlmanacPage, UtcPage};
use satellite_number::is_satellite;

impl Collector {
    // The subframes that are held of a satellite, none where it is no satellite.
    #[tactic(auto, using(satellite_number::specs::laws::Numbers::bounds), unfolding(crate::specs::Held::satellite_of, satellite::specs::Satellite::empty_satellite))]
    fn subframes_of(&self, satellite: usize) -> Option<HeldSubframes>
        ensures { result ≡ cond (is_satellite satellite) (Some (satellite_of self.now satellite).subframes) None }
    {
        if is_satellite(satellite) {
            Some(self.satellites[satellite - 1].subframes)
        } else {
            None
        }
    }

    // Whether a subframe 1, 2 or 3 of a satellite is held.
    #[tactic(auto, unfolding(crate::specs::Questions::holds_any, crate::specs::Questions::any_held, crate::specs::Held::held_subframe1, crate::specs::Held::held_subframe2, crate::specs::Held::held_subframe3))]
    pub fn holds_any(&self, satellite: usize) -> bool
        ensures { result ≡ Questions.holds_any self.now satellite }
    {
        match self.subframes_of(satellite) {
            Some(held) => {
                held.subframe1.is_some() || held.subframe2.is_some() || held.subframe3.is_some()
            }
            None => false,
        }
    }

    // The set of a satellite.
    #[tactic(auto, unfolding(crate::specs::Questions::set, crate::specs::Held::held_subframe1, crate::specs::Held::held_subframe2, crate::specs::Held::held_subframe3, answer::specs::Answer::refuse_if))]
    pub fn set(&self, satellite: usize) -> Result<OrbitSet, Refusal>
        ensures { answer_of result ≡ Questions.set self.now satellite }
    {
        let held = self
            .subframes_of(satellite)
            .ok_or(Refusal::Satellite(satellite))?;
        set_in(held)
    }

    // The almanac page for an SV ID.
    #[tactic(auto, unfolding(crate::specs::Questions::almanac))]
    pub fn almanac(&self, id: usize) -> Result<AlmanacPage, Refusal>
        ensures { answer_of result ≡ Questions.almanac self.now id }
    {
        self.pages.almanac(id)
    }

    // The UTC page.
    #[tactic(auto, unfolding(crate::specs::Questions::utc_page))]
    pub fn utc_page(&self) -> Result<UtcPage, Refusal>
        ensures { answer_of result ≡ Questions.utc_page self.now }
    {
        self.pages.utc_page()
    }
}
