// The time of day in UTC at a GPS week and second: two numbers, as document 01 and C give them.
ghost use Rattle.std.specs.Prelude.{◌≡◌};
ghost use Rattle.answer.specs.Answer.{answer_of};
ghost use Rattle.utc.specs.Time as Time;
ghost use Rattle.utc.specs.Time.{is_gps_second, is_day, gps_time, offset_at, second_of_day};

use answer::Refusal;
use day::{TimeOfDay, modulo_day, time_at};
use leap::{leap_moment, week_difference};
use record::{Record, UtcPage};

// Whether number 14 lets the week and the second pass.
#[tactic(auto, unfolding(crate::specs::Time::is_gps_second))]
fn is_gps_second(week: u32, second: u32) -> bool
    ensures { result ≡ is_gps_second week second }
{
    week <= 8191 && second <= 604799
}

// Whether number 15 lets DN pass.
#[tactic(auto, unfolding(crate::specs::Time::is_day))]
fn is_day(dn: u32) -> bool
    ensures { result ≡ is_day dn }
{
    matches!(dn, 1..=7)
}

// GPS time, in seconds from the start of week 0.
fn gps_time(week: u32, second: u32) -> i64
    ensures { result ≡ gps_time week second }
{
    i64::from(week) * 604800 + i64::from(second)
}

// dtLS before the leap moment, dtLSF from it on.
fn offset_at(page: UtcPage, week: u32, second: u32) -> i32
    ensures { result ≡ offset_at page week second }
{
    if gps_time(week, second) < leap_moment(page.wnlsf, page.dn, week) {
        page.dtls
    } else {
        page.dtlsf
    }
}

// The second of the day in UTC.
fn second_of_day(page: UtcPage, week: u32, second: u32) -> u32
    ensures { result ≡ second_of_day page week second }
{
    let offset = offset_at(page, week, second);
    modulo_day(gps_time(week, second) - i64::from(offset))
}

// The time of day in UTC at a second of a full week, by a UTC page that the writer takes.
#[tactic(auto, unfolding(crate::specs::Time::time_of_day, answer::specs::Answer::refuse_if, writable::specs::Check::check_writable))]
pub fn time_of_day(page: UtcPage, week: u32, second: u32) -> Result<TimeOfDay, Refusal>
    ensures { answer_of result ≡ Time.time_of_day page week second }
{
    writable::check_writable(Record::Utc(page))?;
    if !is_gps_second(week, second) {
        return Err(Refusal::GpsSecond);
    }
    if !is_day(page.dn) {
        return Err(Refusal::DayNumber(page.dn as usize));
    }
    if week_difference(page.wnlsf, week) == -128 {
        return Err(Refusal::WeekDifference);
    }
    Ok(time_at(second_of_day(page, week, second)))
}
