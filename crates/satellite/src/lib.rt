// One satellite: what is held of it, and what a record of its own does to that.
#![tactic(auto)]

ghost use Rattle.std.specs.Prelude.{◌≡◌};
ghost use Rattle.satellite.specs.Satellite.{empty_satellite, satellite_after};

use orbit_set::HeldSubframes;
use record::Record;

// What is held of one satellite.
#[derive(Clone, Copy)]
pub struct Satellite {
    pub subframes: HeldSubframes,
}

impl Satellite {
    // The satellite of which nothing is held.
    #[tactic(auto, unfolding(crate::specs::Satellite::empty_satellite))]
    pub fn empty() -> Self
        ensures { result ≡ empty_satellite }
    {
        Satellite {
            subframes: HeldSubframes {
                subframe1: None,
                subframe2: None,
                subframe3: None,
            },
        }
    }

    // Holds a record of the satellite in place of the one of its kind. A page leaves it as it was.
    #[tactic(auto, unfolding(crate::specs::Satellite::satellite_after, crate::specs::Satellite::subframes_after, record::specs::AsKind::as_subframe1, record::specs::AsKind::as_subframe2, record::specs::AsKind::as_subframe3, record::specs::AsKind::by_kind))]
    pub fn hold(&mut self, r: Record)
        ensures { self.new ≡ satellite_after self.old r }
    {
        match r {
            Record::Subframe1(latest) => self.subframes.subframe1 = Some(latest),
            Record::Subframe2(latest) => self.subframes.subframe2 = Some(latest),
            Record::Subframe3(latest) => self.subframes.subframe3 = Some(latest),
            _ => {}
        }
    }
}
