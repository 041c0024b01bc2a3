// Clock terms, accuracy and time of day of a record, where there is one.
use accuracy::UserRangeAccuracy;
use answer::Refusal;
use clock::ClockTerms;
use console::given_or_refused;
use record::{Subframe1, UtcPage};
use record_text::print_double;

fn print_terms<R: Print>(rt: &R, terms: ClockTerms) {
    print_double(rt, "tgd", terms.tgd, "s");
    print_double(rt, "af0", terms.af0, "s");
    print_double(rt, "af1", terms.af1, "s/s");
    print_double(rt, "af2", terms.af2, "s/s^2");
}

// The clock terms of a subframe 1.
pub fn print_clock<R: Print>(rt: &R, subframe1: Result<Subframe1, Refusal>) {
    let terms = subframe1.and_then(|given| clock::clock_terms(given));
    if let Some(given) = given_or_refused(rt, terms) {
        print_terms(rt, given);
    }
}

fn print_metres<R: Print>(rt: &R, accuracy: UserRangeAccuracy) {
    match accuracy {
        UserRangeAccuracy::Metres(x) => print_double(rt, "metres", x, "m"),
        UserRangeAccuracy::NoPrediction => {
            let _ = println!(rt; "no prediction");
        }
    }
}

// The accuracy of a subframe 1.
pub fn print_accuracy<R: Print>(rt: &R, subframe1: Result<Subframe1, Refusal>) {
    let accuracy = subframe1.and_then(|given| accuracy::accuracy(given));
    if let Some(given) = given_or_refused(rt, accuracy) {
        print_metres(rt, given);
    }
}

// The largest number of 32 bits for a larger one.
fn at_most_32_bits(n: u64) -> u32 {
    u32::try_from(n).unwrap_or(u32::MAX)
}

// The time of day at a second of a week, by a UTC page.
pub fn print_time<R: Print>(rt: &R, page: Result<UtcPage, Refusal>, week: u64, second: u64) {
    let time = page.and_then(|given| utc::time_of_day(
        given,
        at_most_32_bits(week),
        at_most_32_bits(second),
    ));
    if let Some(t) = given_or_refused(rt, time) {
        let _ = println!(rt; "{:02}:{:02}:{:02}", t.hour, t.minute, t.second);
    }
}
