// What stands in a part of the world, counted.
ghost use Rattle.std.specs.Prelude.{◌≡◌, length};
ghost use Rattle.meter.specs.Counting.{by_one};
ghost use Rattle.meter.specs.Tallying.{tally_block_of};
ghost use Rattle.meter.specs.SheetTally.{tally_sheet_of};
ghost use Rattle.position.specs.Parts.{part_at};
ghost use Rattle.anowhetele.specs.Answers.{Handed};

use anowhetele::answer::AnowAnswer;
use position::lot::Lot;
use position::span::Span;

// Tallies the nodes of the block at a key that stand in a part.
#[unsafe(no_mangle)]
pub extern "C" fn anow_tally_block(
    key: i64,
    block: &[u8],
    lot: Lot,
    span: Span,
    out: &mut [u8],
) -> AnowAnswer
    ensures { Handed result out.old out.new
        (tally_block_of by_one key block.now (part_at lot span) (length out.old)) }
{
    anowhetele::metering::anow_tally_block(key, block, lot, span, out)
}

// Tallies the nodes of a sheet's blocks that stand in a part. The spare keeps its length; what it holds afterwards is open.
#[unsafe(no_mangle)]
pub extern "C" fn anow_tally_sheet(
    sheet: &[u8],
    lot: Lot,
    span: Span,
    out: &mut [u8],
    spare: &mut [u8],
) -> AnowAnswer
    ensures told { Handed result out.old out.new
        (tally_sheet_of by_one sheet.now (part_at lot span) (length out.old)
        (length spare.old)) }
    ensures spare { length spare.new ≡ length spare.old }
{
    anowhetele::metering::anow_tally_sheet(sheet, lot, span, out, spare)
}
