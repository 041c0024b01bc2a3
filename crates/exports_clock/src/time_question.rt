// From a GPS second to UTC.
ghost use Rattle.std.specs.Prelude.{◌≡◌};
ghost use Rattle.from_values.specs.FromValues as FromValues;
ghost use Rattle.answer.specs.Answer.{answer_of, and_then};
ghost use Rattle.utc.specs.Time as Time;
ghost use Rattle.exports_clock.specs.Told.{time_told};

use answer::Refusal;
use day::TimeOfDay;
use told::LnavAnswer;

// A time of day.
#[repr(C)]
#[derive(Drop)]
pub struct LnavTime {
    pub answer: LnavAnswer,
    pub hour: u32,
    pub minute: u32,
    pub second: u32,
}

impl From<Result<TimeOfDay, Refusal>> for LnavTime {
    ghost from_gives = { λ time r. r ≡ time_told (answer_of time) };

    #[tactic(auto, unfolding(crate::specs::Told::time_told, answer::specs::Answer::from_value))]
    fn from(time: Result<TimeOfDay, Refusal>) -> LnavTime {
        let given = time.unwrap_or(TimeOfDay {
            hour: 0,
            minute: 0,
            second: 0,
        });
        LnavTime {
            answer: LnavAnswer::from(time),
            hour: given.hour,
            minute: given.minute,
            second: given.second,
        }
    }
}

// The time of day in UTC at a second of a full week, by the UTC page that has these values.
#[tactic(auto, unfolding(answer::specs::Answer::and_then))]
#[unsafe(no_mangle)]
pub extern "C" fn lnav_time_of_day(values: &[i64; 25], week: u32, second: u32) -> LnavTime
    ensures { result ≡ time_told (and_then (FromValues.utc_page_with values.now) (λ page. Time.time_of_day page week second)) }
{
    let page = from_values::utc_page_with(values);
    LnavTime::from(page.and_then(|page| utc::time_of_day(page, week, second)))
}
