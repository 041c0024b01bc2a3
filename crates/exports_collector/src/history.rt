// A feed, and the questions to the collector after a history: blocks of one log are fed one after the other to the empty collector, then a
// question is answered.
ghost use Rattle.std.specs.Prelude.{◌≡◌};
ghost use Rattle.collector.specs.Feed as Feed;
ghost use Rattle.answer.specs.Answer.{answer_of, outcome, from_value};
ghost use Rattle.histories.specs.FromSlices.{set_after, almanac_page_after, utc_page_after};
ghost use Rattle.values.specs.Values.{values_of, values_of_almanac, values_of_utc};
ghost use Rattle.told.specs.Told.{told};
ghost use Rattle.exports_collector.specs.Told.{set_subframe1, set_subframe2, set_subframe3};

use answer::Refusal;
use collector::Collector;
use histories::collected;
use record::Record;
use told::LnavAnswer;

// Gives the values of a record, or leaves them as they were where it is refused.
#[tactic(auto, unfolding(told::specs::Told::told, answer::specs::Answer::from_value, answer::specs::Answer::number, answer::specs::Answer::detail))]
fn give(given: Result<Record, Refusal>, values: &mut [i64; 25]) -> LnavAnswer
    ensures says { result ≡ told (answer_of given) }
    ensures gives { values.new ≡ from_value values.old values_of (answer_of given) }
{
    if let Ok(r) = given {
        *values = values::values_of(r);
    }
    LnavAnswer::from(given)
}

// What a feed of the block at a place of a log answers.
#[unsafe(no_mangle)]
pub extern "C" fn lnav_feed(log: &[u8], place: usize, satellite: usize) -> LnavAnswer
    ensures { result ≡ told (outcome (Feed.feed log.now place satellite)) }
{
    LnavAnswer::from(Collector::empty().feed(log, place, satellite))
}

// The set of a satellite after a history. A refusal leaves the values as they were.
#[tactic(auto, unfolding(histories::specs::FromSlices::set_after, crate::specs::Told::set_subframe1, crate::specs::Told::set_subframe2, crate::specs::Told::set_subframe3, values::specs::Values::values_of, told::specs::Told::told, answer::specs::Answer::from_value, answer::specs::Answer::number, answer::specs::Answer::detail))]
#[unsafe(no_mangle)]
pub extern "C" fn lnav_set(
    log: &[u8],
    places: &[usize],
    satellites: &[usize],
    satellite: usize,
    subframe1: &mut [i64; 25],
    subframe2: &mut [i64; 25],
    subframe3: &mut [i64; 25],
) -> LnavAnswer
    ensures { (result ≡ told (set_after log.now places.now satellites.now satellite)) × (subframe1.new ≡ from_value subframe1.old set_subframe1 (set_after log.now places.now satellites.now satellite)) × (subframe2.new ≡ from_value subframe2.old set_subframe2 (set_after log.now places.now satellites.now satellite)) × (subframe3.new ≡ from_value subframe3.old set_subframe3 (set_after log.now places.now satellites.now satellite)) }
{
    let given = collected(log, places, satellites).set(satellite);
    if let Ok(set) = given {
        *subframe1 = values::values_of(Record::Subframe1(set.subframe1));
        *subframe2 = values::values_of(Record::Subframe2(set.subframe2));
        *subframe3 = values::values_of(Record::Subframe3(set.subframe3));
    }
    LnavAnswer::from(given)
}

// The almanac page for an SV ID after a history. A refusal leaves the values as they were.
#[tactic(auto, unfolding(histories::specs::FromSlices::almanac_page_after, values::specs::Values::values_of, told::specs::Told::told, answer::specs::Answer::from_value, answer::specs::Answer::number, answer::specs::Answer::detail))]
#[unsafe(no_mangle)]
pub extern "C" fn lnav_almanac(
    log: &[u8],
    places: &[usize],
    satellites: &[usize],
    id: usize,
    values: &mut [i64; 25],
) -> LnavAnswer
    ensures { (result ≡ told (almanac_page_after log.now places.now satellites.now id)) × (values.new ≡ from_value values.old values_of_almanac (almanac_page_after log.now places.now satellites.now id)) }
{
    let page = collected(log, places, satellites).almanac(id);
    give(page.map(Record::Almanac), values)
}

// The UTC page after a history. A refusal leaves the values as they were.
#[tactic(auto, unfolding(histories::specs::FromSlices::utc_page_after, values::specs::Values::values_of, told::specs::Told::told, answer::specs::Answer::from_value, answer::specs::Answer::number, answer::specs::Answer::detail))]
#[unsafe(no_mangle)]
pub extern "C" fn lnav_utc_page(
    log: &[u8],
    places: &[usize],
    satellites: &[usize],
    values: &mut [i64; 25],
) -> LnavAnswer
    ensures { (result ≡ told (utc_page_after log.now places.now satellites.now)) × (values.new ≡ from_value values.old values_of_utc (utc_page_after log.now places.now satellites.now)) }
{
    let page = collected(log, places, satellites).utc_page();
    give(page.map(Record::Utc), values)
}
