// What the program sheetcount decides, over the bytes that it reads.
ghost use Rattle.std.specs.Prelude.{◌≡◌, ◌≤◌, length, IfOk};
ghost use Rattle.wire.specs.Answer.{Answered};
ghost use Rattle.meter.specs.Counting.{by_one};
ghost use Rattle.mapblock.specs.Table.{clear_table};
ghost use Rattle.meter.specs.Streaming.{State};
ghost use Rattle.meter.specs.Progress.{Carries, Steps, StepMatches, Untouched};
ghost use Rattle.meter.specs.SheetTold.{told_sheet};
ghost use Rattle.sheetcount_lib.specs.Program.{max_block_length, max_tally_length, block_length_of, next_of, counted_from};

use meter::answer::SheetError;
use meter::stream::{Progress, finish, take_record};
use meter::tables::Tables;
use position::part::Part;
use sheet::records::LENGTH_AT;
use wire::fields::number_at;

// The longest block of a record, and the longest tally.
pub(crate) const MAX_BLOCK_LENGTH: usize = 49152;

pub(crate) const MAX_TALLY_LENGTH: usize = 8192;

// Judges the first twelve bytes of the record with this number, before its block is read: tells how long the block is.
pub(crate) fn block_length(s: &[u8], index: u32) -> Result<usize, SheetError>
    ensures told { told_sheet result ≡ block_length_of index s.now }
    ensures short { IfOk result (λ n. n ≤ max_block_length) }
{
    number_at::<i64>(s, 0).ok_or(SheetError::Malformed(index))?;
    let size = number_at::<u32>(s, LENGTH_AT).ok_or(SheetError::Malformed(index))? as usize;
    if MAX_BLOCK_LENGTH < size {
        return Err(SheetError::NoRoom(index));
    }
    Ok(size)
}

// Takes the record at the front of some bytes, unless its block is too long. It is an inner function of the program, and so is end_sheet: the
// buffers carry a state between records. What it answers is promised where the ids and the counters are clear, the spare carries the state that
// `progress` tells, and a u32 holds the number of the record (`Steps`); the counters are then clear again. Of every state: the spare keeps its
// length, and the ids come back as they were. The spare and the tables are as take_record leaves them.
pub(crate) fn take_next(
    progress: Progress,
    s: &[u8],
    spare: &mut [u8],
    tables: &mut Tables,
) -> Result<(Progress, usize), SheetError>
    ensures spare { length spare.new ≡ length spare.old }
    ensures ids { tables.new.ids ≡ tables.old.ids }
    ensures told { (state : State by_one) → Steps tables.old.ids tables.old.census.counts spare.old progress state
        → StepMatches spare.new result (next_of state s.now)
        × (tables.new.census.counts ≡ clear_table) }
{
    block_length(s, progress.records)?;
    take_record(progress, s, Part::EVERYTHING, spare, tables)
}

// Finishes behind the last record, where there is no byte more. What it answers is promised where the spare carries the state that `progress`
// tells, the output has MAX_TALLY_LENGTH bytes and the spare no fewer. Of every state: a refusal leaves the output as it was.
pub(crate) fn end_sheet(
    progress: Progress,
    rest: &[u8],
    spare: &[u8],
    out: &mut [u8],
) -> Result<usize, SheetError>
    ensures told { (state : State by_one) → Carries spare.now progress state
        → length out.old ≡ max_tally_length → max_tally_length ≤ length spare.now
        → Answered (told_sheet result) out.old out.new (counted_from 0 state rest.now) }
    ensures refused { Untouched (told_sheet result) out.old out.new }
{
    if !rest.is_empty() {
        return Err(SheetError::Malformed(progress.records));
    }
    finish(progress, spare, out)
}
