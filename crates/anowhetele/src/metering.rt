// What stands in a part of the world, counted.
ghost use Rattle.std.specs.Prelude.{◌≡◌, Err, length};
ghost use Rattle.meter.specs.Counting.{by_one};
ghost use Rattle.meter.specs.Told.{told_block};
ghost use Rattle.meter.specs.Tallying.{tally_block_of};
ghost use Rattle.meter.specs.SheetTally.{tally_sheet_of};
ghost use Rattle.position.specs.Parts.{part_at};
ghost use Rattle.meter.specs.SheetTold.{told_sheet, told_sheet_error};
ghost use Rattle.anowhetele.specs.Answers.{Handed, handed};

use crate::answer::{AnowAnswer, done, in_record, plain, record_refused};
use crate::numbers::{BAD_PART, NO_ROOM, OUT_OF_RANGE, PARTS_MISFIT, SHEET_MALFORMED, TOO_MANY};
use meter::answer::SheetError;
use meter::block_tally::{BlockError, tally_block};
use meter::sheet_tally::tally_sheet;
use position::lot::Lot;
use position::part::Part;
use position::span::Span;

impl From<BlockError> for AnowAnswer {
    ghost from_gives = { λ e a. a ≡ handed (told_block (Err e)) };

    fn from(error: BlockError) -> AnowAnswer {
        match error {
            BlockError::BadPart => plain(BAD_PART),
            BlockError::OutOfRange => plain(OUT_OF_RANGE),
            BlockError::Refused(refusal) => refusal.into(),
            BlockError::NoRoom => plain(NO_ROOM),
        }
    }
}

impl From<SheetError> for AnowAnswer {
    ghost from_gives = { λ e a. a ≡ handed (told_sheet_error e) };

    fn from(error: SheetError) -> AnowAnswer {
        match error {
            SheetError::BadPart => plain(BAD_PART),
            SheetError::Misfit => plain(PARTS_MISFIT),
            SheetError::Malformed(index) => in_record(SHEET_MALFORMED, index),
            SheetError::Record { fault, index } => record_refused(fault, index),
            SheetError::NoRoom(index) => in_record(NO_ROOM, index),
            SheetError::TooMany(index) => in_record(TOO_MANY, index),
        }
    }
}

// Tallies the nodes of the block at a key that stand in a part.
pub fn anow_tally_block(key: i64, block: &[u8], lot: Lot, span: Span, out: &mut [u8]) -> AnowAnswer
    ensures { Handed result out.old out.new
        (tally_block_of by_one key block.now (part_at lot span) (length out.old)) }
{
    tally_block(key, block, Part { lot, span }, out).map_or_else(AnowAnswer::from, done)
}

// Gives what tallying a sheet answered, as it is handed to a host.
pub fn sheet_answer(answer: Result<usize, SheetError>) -> AnowAnswer
    ensures { result ≡ handed (told_sheet answer) }
{
    answer.map_or_else(AnowAnswer::from, done)
}

// Tallies the nodes of a sheet's blocks that stand in a part. The spare keeps its length; what it holds afterwards is open.
pub fn anow_tally_sheet(
    sheet: &[u8],
    lot: Lot,
    span: Span,
    out: &mut [u8],
    spare: &mut [u8],
) -> AnowAnswer
    ensures told { Handed result out.old out.new
        (tally_sheet_of by_one sheet.now (part_at lot span) (length out.old)
        (length spare.old)) }
    ensures spare { length spare.new ≡ length spare.old }
{
    sheet_answer(tally_sheet(sheet, Part { lot, span }, out, spare))
}
