// What the collector (a term of document 01) holds. Its fields are closed to other crates, so that a collector comes only from the empty one
// and from feeds.
ghost use Rattle.std.specs.Prelude.{◌≡◌};
ghost use Rattle.collector.specs.Held.{empty_collector};

use pages::Pages;
use satellite::Satellite;

// Satellite n stands at index n - 1.
#[derive(Clone, Copy)]
pub struct Collector {
    pub(crate) satellites: [Satellite; 32],
    pub(crate) pages: Pages,
}

impl Collector {
    // The collector that holds nothing.
    #[tactic(auto, unfolding(crate::specs::Held::empty_collector))]
    pub fn empty() -> Self
        ensures { result ≡ empty_collector }
    {
        Collector {
            satellites: [Satellite::empty(); 32],
            pages: Pages::empty(),
        }
    }
}
