// A feed: the record of the block at a place of a log takes the place of the one of its kind, or the block is refused.
ghost use Rattle.std.specs.Prelude.{◌≡◌, ◌≤◌};
ghost use Rattle.answer.specs.Answer.{answer_of, outcome};
ghost use Rattle.collector.specs.Feed as Feed;
ghost use Rattle.collector.specs.Feed.{kept, fed};

use crate::held::Collector;
use answer::Refusal;
use record::Record;
use satellite_number::is_satellite;

impl Collector {
    // Holds a record of satellite n in place of the one of its kind.
    #[tactic(auto, unfolding(crate::specs::Feed::kept, crate::specs::Held::satellite_of))]
    fn keep(&mut self, n: usize, r: Record)
        requires { (1 ≤ n) × (n ≤ 32) }
        ensures { self.new ≡ kept self.old n r }
    {
        self.satellites[n - 1].hold(r);
        self.pages.hold(r);
    }

    // Feeds the block at place p of a log, received from this satellite. A refusal leaves the collector as it was.
    #[tactic(auto, using(satellite_number::specs::laws::Numbers::bounds), unfolding(crate::specs::Feed::feed, crate::specs::Feed::fed, crate::specs::Feed::collector_after, answer::specs::Answer::refuse_if, answer::specs::Answer::outcome))]
    pub fn feed(&mut self, log: &[u8], p: usize, satellite: usize) -> Result<(), Refusal>
        ensures says { answer_of result ≡ outcome (Feed.feed log.now p satellite) }
        ensures holds { self.new ≡ fed self.old log.now p satellite }
    {
        if !is_satellite(satellite) {
            return Err(Refusal::Satellite(satellite));
        }
        let record = reader::read(log, p)?;
        self.keep(satellite, record);
        Ok(())
    }
}
