// The clock terms of a subframe 1: four doubles, each exact.
ghost use Rattle.std.specs.Prelude.{◌≡◌};
ghost use Rattle.answer.specs.Answer.{answer_of};
ghost use Rattle.clock.specs.Terms as Terms;

use answer::Refusal;
use record::{Record, Subframe1};

// TGD and the terms of the clock's polynomial.
#[derive(Clone, Copy, Debug, PartialEq)]
pub struct ClockTerms {
    pub tgd: f64,
    pub af0: f64,
    pub af1: f64,
    pub af2: f64,
}

// The scales: 2^-31 of TGD and af0, 2^-43 of af1, 2^-55 of af2.
const SCALE_31: f64 = 4.656612873077392578125e-10;

const SCALE_43: f64 = 1.136868377216160297393798828125e-13;

const SCALE_55: f64 = 2.77555756156289135105907917022705078125e-17;

fn terms_of(r: Subframe1) -> ClockTerms
    ensures { result ≡ Terms.terms_of r }
{
    ClockTerms {
        tgd: f64::from(r.tgd) * SCALE_31,
        af0: f64::from(r.af0) * SCALE_31,
        af1: f64::from(r.af1) * SCALE_43,
        af2: f64::from(r.af2) * SCALE_55,
    }
}

// The clock terms of a record that the writer takes.
#[tactic(auto, unfolding(crate::specs::Terms::clock_terms, answer::specs::Answer::refuse_if, writable::specs::Check::check_writable))]
pub fn clock_terms(r: Subframe1) -> Result<ClockTerms, Refusal>
    ensures { answer_of result ≡ Terms.clock_terms r }
{
    writable::check_writable(Record::Subframe1(r))?;
    Ok(terms_of(r))
}
