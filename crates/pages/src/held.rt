// What is held of almanac pages and of the UTC page. The fields are closed to other crates, so that it comes only from the empty pages and from
// records.
ghost use Rattle.std.specs.Prelude.{◌≡◌};
ghost use Rattle.record.specs.declared.record.Record.TheVariants as R;
ghost use Rattle.pages.specs.Held.{empty_pages};
ghost use Rattle.pages.specs.After.{pages_after};

use record::{AlmanacPage, Record, UtcPage};
use satellite_number::is_satellite;

// The latest page of each kind, or none where none was fed. The almanac page for SV ID n stands at index n - 1.
#[derive(Clone, Copy)]
pub struct Pages {
    pub(crate) almanac: [Option<AlmanacPage>; 32],
    pub(crate) utc: Option<UtcPage>,
}

impl Pages {
    // Nothing is held.
    #[tactic(auto, unfolding(crate::specs::Held::empty_pages))]
    pub fn empty() -> Self
        ensures { result ≡ empty_pages }
    {
        Pages {
            almanac: [None; 32],
            utc: None,
        }
    }

    // Holds the page that a record is: an almanac page under its SV ID, whoever sent it. Other pages are not kept.
    #[tactic(auto, unfolding(crate::specs::After::pages_after, crate::specs::After::almanac_after, crate::specs::After::utc_after, record::specs::AsKind::as_almanac, record::specs::AsKind::as_utc, record::specs::AsKind::by_kind))]
    pub fn hold(&mut self, r: Record)
        ensures { self.new ≡ pages_after self.old r }
    {
        match r {
            Record::Almanac(page) => self.hold_almanac(page),
            Record::Utc(page) => self.utc = Some(page),
            _ => {}
        }
    }

    #[tactic(auto, using(satellite_number::specs::laws::Numbers::bounds), unfolding(crate::specs::After::pages_after, crate::specs::After::almanac_after, crate::specs::After::utc_after, crate::specs::After::stored, record::specs::AsKind::as_almanac, record::specs::AsKind::as_utc, record::specs::AsKind::by_kind))]
    fn hold_almanac(&mut self, page: AlmanacPage)
        ensures { self.new ≡ pages_after self.old (R.Almanac page) }
    {
        let id = page.sv_id as usize;
        if is_satellite(id) {
            self.almanac[id - 1] = Some(page);
        }
    }
}
