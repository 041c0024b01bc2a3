// The questions for the held pages: the almanac page for an SV ID, and the UTC page.
ghost use Rattle.std.specs.Prelude.{◌≡◌};
ghost use Rattle.answer.specs.Answer.{answer_of};
ghost use Rattle.pages.specs.Questions as Questions;

use crate::held::Pages;
use answer::Refusal;
use record::{AlmanacPage, UtcPage};
use satellite_number::is_satellite;

impl Pages {
    // The almanac page for an SV ID.
    #[tactic(auto, using(satellite_number::specs::laws::Numbers::bounds), unfolding(crate::specs::Questions::almanac, crate::specs::Held::held_almanac, answer::specs::Answer::refuse_if, answer::specs::Answer::when_held))]
    pub fn almanac(&self, id: usize) -> Result<AlmanacPage, Refusal>
        ensures { answer_of result ≡ Questions.almanac self.now id }
    {
        if !is_satellite(id) {
            return Err(Refusal::Satellite(id));
        }
        self.almanac[id - 1].ok_or(Refusal::PageNotHeld)
    }

    // The UTC page.
    #[tactic(auto, unfolding(crate::specs::Questions::utc_page, crate::specs::Held::held_utc, answer::specs::Answer::when_held))]
    pub fn utc_page(&self) -> Result<UtcPage, Refusal>
        ensures { answer_of result ≡ Questions.utc_page self.now }
    {
        self.utc.ok_or(Refusal::PageNotHeld)
    }
}
