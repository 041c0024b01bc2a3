// The block check, the search, the reader and the writer.
ghost use Rattle.std.specs.Prelude.{◌≡◌};
ghost use Rattle.from_values.specs.FromValues as FromValues;
ghost use Rattle.reader.specs.Reader as Reader;
ghost use Rattle.search.specs.Search as Search;
ghost use Rattle.answer.specs.Answer.{answer_of, from_value, and_then};
ghost use Rattle.block_check.specs.Check as Check;
ghost use Rattle.writer.specs.Writer as Writer;
ghost use Rattle.writer.specs.Writer.{buffer_after};
ghost use Rattle.values.specs.Values.{values_of};
ghost use Rattle.told.specs.Told.{told};
ghost use Rattle.exports_blocks.specs.Told.{found_told, reading_told, polarity_at, polarity_told};
ghost use Rattle.block.specs.Polarity.{by_inverted};

use answer::Refusal;
use block::Polarity;
use record::Record;
use told::LnavAnswer;

// A place, as the search answers it.
#[repr(C)]
#[derive(Drop)]
pub struct LnavFound {
    pub answer: LnavAnswer,
    pub place: usize,
}

impl From<Result<usize, Refusal>> for LnavFound {
    ghost from_gives = { λ found r. r ≡ found_told (answer_of found) };

    #[tactic(auto, unfolding(crate::specs::Told::found_told, answer::specs::Answer::from_value))]
    fn from(found: Result<usize, Refusal>) -> LnavFound {
        LnavFound {
            answer: LnavAnswer::from(found),
            place: found.unwrap_or(0),
        }
    }
}

// Whether a block is inverted.
#[repr(C)]
#[derive(Drop)]
pub struct LnavPolarity {
    pub answer: LnavAnswer,
    pub inverted: bool,
}

impl From<Result<Polarity, Refusal>> for LnavPolarity {
    ghost from_gives = { λ polarity r. r ≡ polarity_told (answer_of polarity) };

    #[tactic(auto, unfolding(crate::specs::Told::polarity_told, answer::specs::Answer::from_value))]
    fn from(polarity: Result<Polarity, Refusal>) -> LnavPolarity {
        LnavPolarity {
            answer: LnavAnswer::from(polarity),
            inverted: polarity.is_ok_and(|q| q.is_inverted()),
        }
    }
}

// The number of a record's kind, as the reader answers it.
#[repr(C)]
#[derive(Drop)]
pub struct LnavReading {
    pub answer: LnavAnswer,
    pub kind: u8,
}

impl From<Result<Record, Refusal>> for LnavReading {
    ghost from_gives = { λ reading r. r ≡ reading_told (answer_of reading) };

    #[tactic(auto, unfolding(crate::specs::Told::reading_told, answer::specs::Answer::from_value))]
    fn from(reading: Result<Record, Refusal>) -> LnavReading {
        LnavReading {
            answer: LnavAnswer::from(reading),
            kind: reading.map_or(0, |r| kind::kind_number(r)),
        }
    }
}

// The block check at a place of a log.
#[unsafe(no_mangle)]
pub extern "C" fn lnav_check(log: &[u8], place: usize) -> LnavAnswer
    ensures { result ≡ told (Check.check_block log.now place) }
{
    LnavAnswer::from(block_check::check_block(log, place))
}

// The search from a place of a log on.
#[unsafe(no_mangle)]
pub extern "C" fn lnav_find(log: &[u8], place: usize) -> LnavFound
    ensures { result ≡ found_told (Search.find log.now place) }
{
    LnavFound::from(search::find(log, place))
}

// The polarity of the block at a place of a log. Refused as the block check refuses.
#[tactic(auto, unfolding(crate::specs::Told::polarity_at, answer::specs::Answer::when_accepted))]
fn polarity_at(log: &[u8], place: usize) -> Result<Polarity, Refusal>
    ensures { answer_of result ≡ polarity_at log.now place }
{
    block_check::check_block(log, place)?;
    Ok(block::polarity_at(log, place))
}

// Whether the block at a place of a log is inverted. Refused as the block check refuses.
#[unsafe(no_mangle)]
pub extern "C" fn lnav_inverted(log: &[u8], place: usize) -> LnavPolarity
    ensures { result ≡ polarity_told (polarity_at log.now place) }
{
    LnavPolarity::from(polarity_at(log, place))
}

// Reads the block at a place of a log. A refusal leaves the values as they were.
#[tactic(auto, unfolding(answer::specs::Answer::from_value))]
#[unsafe(no_mangle)]
pub extern "C" fn lnav_read(log: &[u8], place: usize, values: &mut [i64; 25]) -> LnavReading
    ensures { (result ≡ reading_told (Reader.read log.now place)) × (values.new ≡ from_value values.old values_of (Reader.read log.now place)) }
{
    let reading = reader::read(log, place);
    if let Ok(r) = reading {
        *values = values::values_of(r);
    }
    LnavReading::from(reading)
}

// Writes the block of the record that has these values into the first 302 bytes of a buffer, or refuses and leaves the buffer as it was.
#[tactic(auto, unfolding(answer::specs::Answer::from_value, answer::specs::Answer::and_then))]
#[unsafe(no_mangle)]
pub extern "C" fn lnav_write(
    kind: u8,
    values: &[i64; 25],
    inverted: bool,
    block: &mut [u8],
) -> LnavAnswer
    ensures { (result ≡ told (and_then (FromValues.record_with kind values.now) (λ s. Writer.write s block.old))) × (block.new ≡ from_value block.old (λ s. buffer_after s (by_inverted inverted) block.old) (FromValues.record_with kind values.now)) }
{
    // A match and no `and_then`: a closure that writes to the lent block leaves a goal open.
    let written = match from_values::record_with(kind, values) {
        Ok(r) => writer::write(r, Polarity::from(inverted), block),
        Err(refusal) => Err(refusal),
    };
    LnavAnswer::from(written)
}
