// A sheet read from the reader `input`, a record at a time. Four functions here are inner functions with a premise: for `read_block` and
// `read_record` a buffer of the longest record's length, for `take_all` and `read_sheet` clear tables and a spare that carries no records yet.
ghost use Rattle.std.specs.Prelude.{◌≡◌, ◌+◌, ◌≤◌, length, take, IfOk};
ghost use Rattle.wire.specs.Bytes.{Bytes};
ghost use Rattle.meter.specs.Counting.{by_one};
ghost use Rattle.meter.specs.Streaming.{no_records};
ghost use Rattle.meter.specs.Progress.{Carries};
ghost use Rattle.sheetcount_lib.specs.Program.{max_block_length, counted_from, sheetcount_of};
ghost use Rattle.sheetcount_lib.specs.Reading.{longest, record_length, IfRead, Ended, Ready, SheetCounted, CountedAs};

use crate::program::{MAX_BLOCK_LENGTH, MAX_TALLY_LENGTH, block_length, end_sheet, take_next};
use meter::answer::SheetError;
use meter::stream::{Progress, start};
use meter::tables::Tables;
use position::part::Part;
use sheet::head::sheet_head;
use sheet::records::BLOCK_AT;
use std::io;
use std::io::Read;
use wire::heads::HEAD_LENGTH;

// Why a sheet is not counted: a read failed, or the sheet is refused.
#[derive(Clone, Copy, Debug)]
pub(crate) enum CountError {
    Read(io::Error),
    Sheet(SheetError),
}

impl From<io::Error> for CountError {
    ghost use Rattle.std.specs.Prelude.{◌≡◌};
    ghost use Rattle.sheetcount_lib.specs.declared.reading.CountError.TheVariants.{Read};

    ghost from_gives = { λ e r. r ≡ Read e };

    fn from(error: io::Error) -> CountError {
        CountError::Read(error)
    }
}

impl From<SheetError> for CountError {
    ghost use Rattle.std.specs.Prelude.{◌≡◌};
    ghost use Rattle.sheetcount_lib.specs.declared.reading.CountError.TheVariants.{Sheet};

    ghost from_gives = { λ e r. r ≡ Sheet e };

    fn from(error: SheetError) -> CountError {
        CountError::Sheet(error)
    }
}

// Reads until the buffer is full, the input ends or a read fails. Tells how many bytes were read, which are fewer than the buffer has room for
// only where the input ends.
fn read_bytes(input: &mut impl Read, bytes: &mut [u8]) -> io::Result<usize>
    ensures told { IfOk result (λ n. n ≤ length bytes.old) }
    ensures bytes { Bytes bytes.new }
{
    let mut done = 0;
    while done < bytes.len() {
        let more = input.read(&mut bytes[done..])?;
        if more == 0 {
            return Ok(done);
        }
        done += more;
    }
    Ok(done)
}

// Reads a record's block of so many bytes to its place behind the first twelve. Tells how many bytes there are, with those.
fn read_block(input: &mut impl Read, size: usize, bytes: &mut [u8]) -> io::Result<usize>
    requires { (length bytes.old ≡ longest) × (size ≤ max_block_length) }
    ensures told { IfOk result (λ n. n ≤ 12 + size) }
    ensures bytes { take 12 bytes.new ≡ take 12 bytes.old }
{
    let end = BLOCK_AT + size;
    let n = read_bytes(input, &mut bytes[BLOCK_AT..end])?;
    Ok(BLOCK_AT + n)
}

// Reads a record to the front of a buffer: its first twelve bytes, which say how long its block is, and then the block, unless it is too
// long; no byte behind it. Tells how many bytes there are.
fn read_record(input: &mut impl Read, bytes: &mut [u8]) -> io::Result<usize>
    requires { length bytes.old ≡ longest }
    ensures told { IfOk result (λ n. n ≤ length bytes.old) }
    ensures inside { IfOk result (λ n. n ≤ record_length (take 12 bytes.new)) }
    ensures bytes { Bytes bytes.new }
{
    let head = read_bytes(input, &mut bytes[..BLOCK_AT])?;
    // Which record it is makes no difference here: the number stands in a refusal alone.
    let Ok(size) = block_length(&bytes[..head], 0) else {
        return Ok(head);
    };
    read_block(input, size, bytes)
}

// The longest record: twelve bytes and its block.
const MAX_RECORD_LENGTH: usize = BLOCK_AT + MAX_BLOCK_LENGTH;

// What a sheet is counted in: room for a record, the spare, which holds the running tally, and the tables.
#[derive(Drop)]
struct Buffers {
    record: [u8; MAX_RECORD_LENGTH],
    spare: [u8; MAX_TALLY_LENGTH],
    tables: Tables,
}

// Reads one byte more behind the last record, of which there is none in a sheet, and finishes.
fn read_end(
    input: &mut impl Read,
    progress: Progress,
    buffers: &mut Buffers,
    out: &mut [u8; MAX_TALLY_LENGTH],
) -> Result<usize, CountError>
    ensures { IfRead (Ended buffers.old.spare progress out.old out.new) result }
{
    let n = read_bytes(input, &mut buffers.record[..1])?;
    Ok(end_sheet(progress, &buffers.record[..n], &buffers.spare, out)?)
}

// Reads and takes so many records, one behind the other, and then the end.
fn take_all(
    input: &mut impl Read,
    count: u32,
    progress: Progress,
    buffers: &mut Buffers,
    out: &mut [u8; MAX_TALLY_LENGTH],
) -> Result<usize, CountError>
    requires { Ready buffers.old.tables.ids buffers.old.tables.census.counts
        × Carries buffers.old.spare progress (no_records by_one) }
    ensures { IfRead (SheetCounted (counted_from count (no_records by_one)) out.old out.new) result }
{
    let mut now = progress;
    for _ in 0..count {
        let n = read_record(input, &mut buffers.record)?;
        (now, _) = take_next(
            now,
            &buffers.record[..n],
            &mut buffers.spare,
            &mut buffers.tables,
        )?;
    }
    read_end(input, now, buffers, out)
}

// Reads the head, which says how many records there are, then the records and the end.
fn read_sheet(
    input: &mut impl Read,
    progress: Progress,
    buffers: &mut Buffers,
    out: &mut [u8; MAX_TALLY_LENGTH],
) -> Result<usize, CountError>
    requires { Ready buffers.old.tables.ids buffers.old.tables.census.counts
        × Carries buffers.old.spare progress (no_records by_one) }
    ensures { IfRead (SheetCounted sheetcount_of out.old out.new) result }
{
    let got = read_bytes(input, &mut buffers.record[..HEAD_LENGTH])?;
    let count = sheet_head(&buffers.record[..got]).ok_or(SheetError::Malformed(0))?;
    take_all(input, count, progress, buffers, out)
}

// Reads a sheet and tallies it into the output.
pub(crate) fn count_sheet(
    input: &mut impl Read,
    out: &mut [u8; MAX_TALLY_LENGTH],
) -> Result<usize, CountError>
    ensures { IfRead (CountedAs out.new) result }
{
    // The buffers come first, as the tables in the tally of a sheet.
    let mut buffers = Buffers {
        record: [0u8; MAX_RECORD_LENGTH],
        spare: [0u8; MAX_TALLY_LENGTH],
        tables: Tables::new(),
    };
    let progress = start(Part::EVERYTHING, out.len(), buffers.spare.len())?;
    read_sheet(input, progress, &mut buffers, out)
}
