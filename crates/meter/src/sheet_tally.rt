// The tally of a sheet: its records, streamed from the caller's bytes.
ghost use Rattle.std.specs.Prelude.{◌≡◌, ◌≤◌, length};
ghost use Rattle.wire.specs.Answer.{Answered};
ghost use Rattle.meter.specs.Counting.{by_one};
ghost use Rattle.mapblock.specs.Table.{clear_table};
ghost use Rattle.meter.specs.SheetTally.{tally_sheet_of};
ghost use Rattle.meter.specs.Streaming.{State};
ghost use Rattle.meter.specs.Progress.{Carries};
ghost use Rattle.meter.specs.SheetTold.{answer_from, Numbered, told_sheet};

use crate::answer::SheetError;
use crate::stream::{Progress, finish, start, take_record};
use crate::tables::Tables;
use position::part::Part;
use sheet::head::sheet_head;
use wire::heads::HEAD_LENGTH;

// Takes so many records, with no byte more behind them, and puts their tally into the output. What it answers is promised where the tables are
// clear, which each record leaves so, the spare carries the state that `progress` tells and is no shorter than the output, and a u32 holds the
// number of all records.
fn take_records(
    s: &[u8],
    count: u32,
    part: Part,
    out: &mut [u8],
    spare: &mut [u8],
    progress: Progress,
    tables: &mut Tables,
) -> Result<usize, SheetError>
    ensures spare { length spare.new ≡ length spare.old }
    ensures told { tables.old.ids ≡ clear_table → tables.old.census.counts ≡ clear_table → (state : State by_one)
        → Carries spare.old progress state → Numbered state count
        → length out.old ≤ length spare.old
        → Answered (told_sheet result) out.old out.new
        (answer_from part (length out.old) state count s.now) }
{
    let mut rest = s;
    let mut now = progress;
    for _ in 0..count {
        let (next, length) = take_record(now, rest, part, spare, tables)?;
        now = next;
        rest = &rest[length..];
    }
    if !rest.is_empty() {
        return Err(SheetError::Malformed(now.records));
    }
    finish(now, spare, out)
}

// Counts the nodes of a sheet's blocks that stand in a part, name by name. The spare keeps its length; what it holds afterwards is open.
pub fn tally_sheet(
    sheet: &[u8],
    part: Part,
    out: &mut [u8],
    spare: &mut [u8],
) -> Result<usize, SheetError>
    ensures told { Answered (told_sheet result) out.old out.new
        (tally_sheet_of by_one sheet.now part (length out.old) (length spare.old)) }
    ensures spare { length spare.new ≡ length spare.old }
{
    // The tables come first and are set up once: a large frame that is set up behind a test has lost a register's value in compiled code.
    let mut tables = Tables::new();
    let progress = start(part, out.len(), spare.len())?;
    let count = sheet_head(sheet).ok_or(SheetError::Malformed(0))?;
    take_records(
        &sheet[HEAD_LENGTH..],
        count,
        part,
        out,
        spare,
        progress,
        &mut tables,
    )
}
