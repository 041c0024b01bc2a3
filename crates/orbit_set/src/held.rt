// The subframes that are held of a satellite: of each kind the latest, or none where none was fed.
use record::{Subframe1, Subframe2, Subframe3};

#[derive(Clone, Copy)]
pub struct HeldSubframes {
    pub subframe1: Option<Subframe1>,
    pub subframe2: Option<Subframe2>,
    pub subframe3: Option<Subframe3>,
}
