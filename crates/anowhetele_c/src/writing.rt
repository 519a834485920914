// The writer.
ghost use Rattle.std.specs.Prelude.{length};
ghost use Rattle.block_writer.specs.BlockParts.{block_parts};
ghost use Rattle.block_writer.specs.Write.{write_of};
ghost use Rattle.anowhetele.specs.Answers.{Handed};

use anowhetele::answer::AnowAnswer;
use mapblock::head::Head;

// Writes a block from its head, its lists and its sections.
#[unsafe(no_mangle)]
pub extern "C" fn anow_write(
    head: Head,
    param0: &[u16],
    param1: &[u8],
    param2: &[u8],
    names: &[u8],
    metadata: &[u8],
    objects: &[u8],
    timers: &[u8],
    out: &mut [u8],
) -> AnowAnswer
    ensures { Handed result out.old out.new
        (write_of (block_parts head param0.now param1.now param2.now
        names.now metadata.now objects.now timers.now)
        (length out.old)) }
{
    anowhetele::writing::anow_write(
        head, param0, param1, param2, names, metadata, objects, timers, out,
    )
}
