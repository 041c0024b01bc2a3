// The listing of a log.
ghost use Rattle.std.specs.Prelude.{◌≡◌};
ghost use Rattle.answer.specs.Answer.{answer_of};
ghost use Rattle.listing_text.specs.Listing as Listing;
ghost use Rattle.exports_blocks.specs.Told.{listing_told};

use answer::Refusal;
use told::LnavAnswer;

// The length of a listing. C has a struct of its own for it, beside that of a place.
#[repr(C)]
#[derive(Drop)]
pub struct LnavListing {
    pub answer: LnavAnswer,
    pub length: usize,
}

impl From<Result<usize, Refusal>> for LnavListing {
    ghost from_gives = { λ listed r. r ≡ listing_told (answer_of listed) };

    #[tactic(auto, unfolding(crate::specs::Told::listing_told, answer::specs::Answer::from_value))]
    fn from(listed: Result<usize, Refusal>) -> LnavListing {
        LnavListing {
            answer: LnavAnswer::from(listed),
            length: listed.unwrap_or(0),
        }
    }
}

// Puts the listing of a log at the start of a buffer, or refuses and leaves the buffer as it was. Every listing fits.
#[unsafe(no_mangle)]
pub extern "C" fn lnav_list(log: &[u8], text: &mut [u8; 4096]) -> LnavListing
    ensures { (result ≡ listing_told (Listing.list log.now)) × (text.new ≡ Listing.buffer_after log.now text.old) }
{
    LnavListing::from(listing_text::list(log, text))
}
