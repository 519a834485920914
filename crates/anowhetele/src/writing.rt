// The writer.
ghost use Rattle.std.specs.Prelude.{◌≡◌, Err, length};
ghost use Rattle.block_writer.specs.BlockParts.{block_parts};
ghost use Rattle.block_writer.specs.Write.{told_write, write_of};
ghost use Rattle.anowhetele.specs.Answers.{Handed, handed};

use crate::answer::{AnowAnswer, done, plain};
use crate::numbers::{NO_ROOM, PARTS_MISFIT};
use block_writer::write::{WriteError, write};
use mapblock::head::Head;

impl From<WriteError> for AnowAnswer {
    ghost from_gives = { λ e a. a ≡ handed (told_write (Err e)) };

    fn from(error: WriteError) -> AnowAnswer {
        match error {
            WriteError::Misfit => plain(PARTS_MISFIT),
            WriteError::Refused(refusal) => refusal.into(),
            WriteError::NoRoom => plain(NO_ROOM),
        }
    }
}

// Writes a block from its head, its lists and its sections.
pub fn anow_write(
    head: Head,
    param0: &[u16],
    param1: &[u8],
    param2: &[u8],
    names: &[u8],
    metadata: &[u8],
    objects: &[u8],
    timers: &[u8],
    out: &mut [u8],
) -> AnowAnswer
    ensures { Handed result out.old out.new
        (write_of (block_parts head param0.now param1.now param2.now
        names.now metadata.now objects.now timers.now)
        (length out.old)) }
{
    write(
        head, param0, param1, param2, names, metadata, objects, timers, out,
    )
    .map_or_else(AnowAnswer::from, done)
}
