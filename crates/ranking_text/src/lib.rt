// The ranking of a collector's satellites as text: a line for each whose set can be given, then the others with the reason.
#![tactic(auto)]

use accuracy::UserRangeAccuracy;
use answer::Refusal;
use collector::Collector;
use console::print_refusal;
use orbit_set::OrbitSet;
use record::Subframe1;
use record_text::Tenths;
use std::fmt;
use std::fmt::{Display, Formatter};

// The accuracy that a subframe 1 states.
#[derive(Clone, Copy)]
struct Metres(Subframe1);

impl Display for Metres {
    fn fmt<W: fmt::Write>(&self, f: &mut Formatter<W>) -> fmt::Result {
        match accuracy::accuracy(self.0) {
            Ok(UserRangeAccuracy::Metres(x)) => write!(f, "{}", Tenths(x)),
            Ok(UserRangeAccuracy::NoPrediction) => f.write_str("no prediction"),
            Err(refusal) => write!(f, "{refusal}"),
        }
    }
}

// Why a set is refused, with the subframe that is not held.
#[derive(Clone, Copy)]
struct Reason(Refusal);

impl Display for Reason {
    fn fmt<W: fmt::Write>(&self, f: &mut Formatter<W>) -> fmt::Result {
        match self.0 {
            Refusal::SubframeNotHeld(n) => write!(f, "subframe {n} not held"),
            refusal => write!(f, "{refusal}"),
        }
    }
}

// The line of a satellite with its set: number, URA index, accuracy, count of subframe 1 and issue.
fn print_line<R: Print>(rt: &R, satellite: usize, set: OrbitSet) {
    let first = set.subframe1;
    let _ = println!(rt;
        "{satellite}\t{}\t{}\t{}\t{}",
        first.ura,
        Metres(first),
        first.header.count,
        first.iodc_low
    );
}

// The lines of the first n satellites of the list.
fn print_list<R: Print>(rt: &R, c: &Collector, satellites: [u8; 32], n: usize) {
    for satellite in satellites.into_iter().take(n).map(usize::from) {
        if let Ok(set) = c.set(satellite) {
            print_line(rt, satellite, set);
        }
    }
}

// The lines of the satellites of which something is held and whose set is refused.
fn print_others<R: Print>(rt: &R, c: &Collector) {
    for n in 1..=32 {
        if c.holds_any(n)
            && let Err(refusal) = c.set(n)
        {
            let _ = println!(rt; "{n}\t{}", Reason(refusal));
        }
    }
}

// Prints the ranking: a header, the list, and the others.
pub fn print_ranking<R: Print>(rt: &R, c: &Collector) {
    let mut satellites = [0u8; 32];
    match ranking::rank(c, &mut satellites) {
        Ok(n) => {
            let _ = println!(rt; "satellite\tura\tmetres\tcount\tissue");
            print_list(rt, c, satellites, n);
            print_others(rt, c);
        }
        Err(refusal) => print_refusal(rt, refusal),
    }
}
