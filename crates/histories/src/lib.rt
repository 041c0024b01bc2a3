// The collector as a history: blocks of one log are fed one after the other to the empty collector.
#![tactic(auto)]

ghost use Rattle.std.specs.Prelude.{◌≡◌};
ghost use Rattle.histories.specs.History.{reached};
ghost use Rattle.histories.specs.FromSlices.{history};

use collector::Collector;

// The collector after the feeds of the blocks at these places for these satellites, as far as both slices go.
pub fn collected(log: &[u8], places: &[usize], satellites: &[usize]) -> Collector
    ensures { result ≡ reached (history log.now places.now satellites.now) }
{
    let mut c = Collector::empty();
    for (place, satellite) in places.iter().zip(satellites) {
        // A refused feed leaves the collector as it was.
        let _ = c.feed(log, *place, *satellite);
    }
    c
}
