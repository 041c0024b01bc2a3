// The clock terms and the accuracy of a subframe 1.
ghost use Rattle.std.specs.Prelude.{◌≡◌};
ghost use Rattle.from_values.specs.FromValues as FromValues;
ghost use Rattle.answer.specs.Answer.{answer_of, and_then};
ghost use Rattle.accuracy.specs.Accuracy as Accuracy;
ghost use Rattle.accuracy.specs.Accuracy.{accuracy_answer};
ghost use Rattle.clock.specs.Terms as Terms;
ghost use Rattle.exports_clock.specs.Told.{terms_told, accuracy_told};

use accuracy::UserRangeAccuracy;
use answer::Refusal;
use clock::ClockTerms;
use told::LnavAnswer;

// The four clock terms.
#[repr(C)]
#[derive(Drop)]
pub struct LnavTerms {
    pub answer: LnavAnswer,
    pub tgd: f64,
    pub af0: f64,
    pub af1: f64,
    pub af2: f64,
}

impl From<Result<ClockTerms, Refusal>> for LnavTerms {
    ghost from_gives = { λ terms r. r ≡ terms_told (answer_of terms) };

    #[tactic(auto, unfolding(crate::specs::Told::terms_told, crate::specs::Told::plus_zero, answer::specs::Answer::from_value))]
    fn from(terms: Result<ClockTerms, Refusal>) -> LnavTerms {
        let given = terms.unwrap_or(ClockTerms {
            tgd: 0.0,
            af0: 0.0,
            af1: 0.0,
            af2: 0.0,
        });
        LnavTerms {
            answer: LnavAnswer::from(terms),
            tgd: given.tgd,
            af0: given.af0,
            af1: given.af1,
            af2: given.af2,
        }
    }
}

// The clock terms of the subframe 1 that has these values.
#[tactic(auto, unfolding(answer::specs::Answer::and_then))]
#[unsafe(no_mangle)]
pub extern "C" fn lnav_clock_terms(values: &[i64; 25]) -> LnavTerms
    ensures { result ≡ terms_told (and_then (FromValues.subframe1_with values.now) Terms.clock_terms) }
{
    let subframe1 = from_values::subframe1_with(values);
    LnavTerms::from(subframe1.and_then(|r| clock::clock_terms(r)))
}

// The accuracy: whether a prediction exists, and the length in metres.
#[repr(C)]
#[derive(Drop)]
pub struct LnavRangeAccuracy {
    pub answer: LnavAnswer,
    pub predicted: bool,
    pub metres: f64,
}

impl From<Result<UserRangeAccuracy, Refusal>> for LnavRangeAccuracy {
    ghost from_gives = { λ accuracy r. r ≡ accuracy_told (accuracy_answer accuracy) };

    #[tactic(auto, unfolding(crate::specs::Told::accuracy_told, crate::specs::Told::is_predicted, crate::specs::Told::metres, crate::specs::Told::plus_zero, told::specs::Told::told, answer::specs::Answer::number, answer::specs::Answer::detail, answer::specs::Answer::from_value))]
    fn from(accuracy: Result<UserRangeAccuracy, Refusal>) -> LnavRangeAccuracy {
        let (predicted, length) = match accuracy {
            Ok(UserRangeAccuracy::Metres(length)) => (true, length),
            _ => (false, 0.0),
        };
        LnavRangeAccuracy {
            answer: LnavAnswer::from(accuracy),
            predicted,
            metres: length,
        }
    }
}

// The accuracy of the subframe 1 that has these values. C has a function for each question.
#[tactic(auto, unfolding(answer::specs::Answer::and_then))]
#[unsafe(no_mangle)]
pub extern "C" fn lnav_accuracy(values: &[i64; 25]) -> LnavRangeAccuracy
    ensures { result ≡ accuracy_told (and_then (FromValues.subframe1_with values.now) Accuracy.accuracy) }
{
    let subframe1 = from_values::subframe1_with(values);
    LnavRangeAccuracy::from(subframe1.and_then(|r| accuracy::accuracy(r)))
}
