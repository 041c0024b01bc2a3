// The writer's answer, and the block in the caller's buffer.
ghost use Rattle.std.specs.Prelude.{◌≡◌};
ghost use Rattle.answer.specs.Answer.{answer_of};
ghost use Rattle.writer.specs.Writer as Writer;
ghost use Rattle.writer.specs.Writer.{buffer_after};

use crate::words::put_block;
use answer::Refusal;
use block::Polarity;
use message_bits::message_of;
use record::Record;
use text::Cursor;

// Writes the block of a record into the first 302 bytes of a buffer, or refuses and leaves the buffer as it was.
pub fn write(r: Record, polarity: Polarity, buf: &mut [u8]) -> Result<(), Refusal>
    ensures { (answer_of result ≡ Writer.write r buf.old) × (buf.new ≡ buffer_after r polarity buf.old) }
{
    writable::check_writable(r)?;
    if buf.len() < block::BLOCK_BYTES {
        return Err(Refusal::BlockBuffer(buf.len()));
    }
    let message = message_of(r);
    let mut bits = Cursor::new(buf, 0);
    put_block(&mut bits, &message, polarity.start_bit());
    Ok(())
}
