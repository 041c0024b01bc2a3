// The reader's answer: the record, or the refusal of the block check.
ghost use Rattle.std.specs.Prelude.{◌≡◌};
ghost use Rattle.bits.specs.Bits.{bits_at};
ghost use Rattle.block.specs.Block.{source};
ghost use Rattle.record.specs.Source.{header_in, record_of};
ghost use Rattle.reader.specs.Reader as Reader;
ghost use Rattle.answer.specs.Answer.{answer_of};

use crate::numbers::{number_at, numbers_at};
use answer::Refusal;
use record::{Header, Record};

fn header_at(log: &[u8], p: usize) -> Header
    ensures { result ≡ header_in (source (bits_at log.now p)) }
{
    header::header_from(numbers_at(log, p, 8, record::header_widths()))
}

fn record_at(log: &[u8], p: usize) -> Record
    ensures { result ≡ record_of (source (bits_at log.now p)) }
{
    let header = header_at(log, p);
    let data_id = number_at(log, p, 48, 2);
    let id = number_at(log, p, 50, 6);
    let kind = kind::kind_for(header.subframe, data_id, id);
    from_numbers::record_from(kind, header, numbers_at(log, p, 48, record::widths(kind)))
}

// Reads the block at place p of a log.
#[tactic(auto, unfolding(crate::specs::Reader::read, answer::specs::Answer::when_accepted))]
pub fn read(log: &[u8], p: usize) -> Result<Record, Refusal>
    ensures { answer_of result ≡ Reader.read log.now p }
{
    block_check::check_block(log, p)?;
    Ok(record_at(log, p))
}
