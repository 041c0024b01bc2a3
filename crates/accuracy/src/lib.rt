// The accuracy that a subframe 1 states by its URA index.
#![tactic(auto)]

ghost use Rattle.std.specs.Prelude.{◌≡◌, map};
ghost use Rattle.accuracy.specs.Accuracy as Accuracy;
ghost use Rattle.accuracy.specs.Accuracy.{predicted, accuracy_answer, tenths, nearest_tenths, accuracy_for};

use answer::Refusal;
use record::{Record, Subframe1};

// A length in metres, or that no prediction exists. Document 01 names this form, so that the case of index 15 has a name.
#[derive(Clone, Copy, Debug)]
pub enum UserRangeAccuracy {
    Metres(f64),
    NoPrediction,
}

// The length for each index from 0 to 14.
const METRES: [f64; 15] = [
    2.0, 2.8, 4.0, 5.7, 8.0, 11.3, 16.0, 32.0, 64.0, 128.0, 256.0, 512.0, 1024.0, 2048.0, 4096.0,
];

// The lengths with their rule: each is the double nearest to the length that document 01 states.
fn metres_table() -> [f64; 15]
    ensures { result ≡ map nearest_tenths tenths }
{
    METRES
}

fn accuracy_for(ura: u32) -> UserRangeAccuracy
    ensures { predicted result ≡ accuracy_for ura }
{
    match metres_table().get(ura as usize) {
        Some(metres) => UserRangeAccuracy::Metres(*metres),
        None => UserRangeAccuracy::NoPrediction,
    }
}

// The accuracy of a record that the writer takes.
#[tactic(auto, unfolding(crate::specs::Accuracy::accuracy, answer::specs::Answer::refuse_if, writable::specs::Check::check_writable))]
pub fn accuracy(r: Subframe1) -> Result<UserRangeAccuracy, Refusal>
    ensures { accuracy_answer result ≡ Accuracy.accuracy r }
{
    writable::check_writable(Record::Subframe1(r))?;
    Ok(accuracy_for(r.ura))
}
