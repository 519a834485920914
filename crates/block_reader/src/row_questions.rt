// Rows from the front of a section: the numbers of the front row and where its runs stand, each run as a slice of the rows given, and the
// rows behind it handed on as what remains. A call that hands back a slice hands back an empty one when refused; its number and offset are
// asked by the row's own question.
ghost use Rattle.std.specs.Prelude.{◌≡◌, ◌≤◌, ℕ, IfOk, length};
ghost use Rattle.mapblock.specs.Told.{told_reading};
ghost use Rattle.block_reader.specs.AskedRows.{told_row_answer};
ghost use Rattle.wire.specs.Places.{place_in, start_told};
ghost use Rattle.wire.specs.Ranges.{range_told, IsSlice};
ghost use Rattle.wire.specs.Walk.{rows_behind};
ghost use Rattle.block_reader.specs.RowQuestions.{front_row, name_row_of, metadata_row_of, object_row_of, timer_row_of};

use mapblock::fault::{Fault, Refusal};
use mapblock::head::is_version;
use mapblock::metadata::{MetadataFields, metadata_row};
use mapblock::names::{NameFields, name_row};
use mapblock::objects::{ObjectFields, object_row};
use mapblock::timers::{TIMER_ROW_LENGTH, TimerFields, timer_row};
use wire::ranges::{NO_RANGE, slice_of};

// Why a front row is not given: there is none, or it is refused.
#[derive(Clone, Copy, Debug, PartialEq, Eq, Hash)]
pub enum RowError {
    NoSuchRow,
    Refused(Refusal),
}

impl From<Refusal> for RowError {
    ghost use Rattle.std.specs.Prelude.{◌≡◌};
    ghost use Rattle.block_reader.specs.declared.row_questions.RowError.TheVariants.{Refused};

    ghost from_gives = { λ w e. e ≡ Refused w };

    fn from(refusal: Refusal) -> RowError {
        RowError::Refused(refusal)
    }
}

// Answers with the front row as it was read; where there are no bytes there is none.
fn front_row<T: Copy>(
    rows: &[u8],
    read: Result<(T, usize), Refusal>,
) -> Result<(T, usize), RowError>
    ensures { told_row_answer result ≡ front_row rows.now (told_reading read) }
{
    if rows.is_empty() {
        return Err(RowError::NoSuchRow);
    }
    Ok(read?)
}

// Gives the rows behind the front row, and none where it is refused.
fn behind_row<T: Copy>(rows: &[u8], answer: Result<(T, usize), RowError>) -> &[u8]
    requires { IfOk answer (λ row. row.1 ≤ length rows.now) }
    ensures told { result.now ≡ rows_behind rows.now (told_row_answer answer) }
    ensures place { result.ref_ptr ≡ place_in rows.entry (start_told (λ x. x.1) (told_row_answer answer)) }
{
    match answer {
        Ok((_, n)) => &rows[n..],
        Err(_) => &rows[..0],
    }
}

// Reads the front row of rows of names, judged alone.
pub fn name_row_of(rows: &[u8]) -> Result<(NameFields, usize), RowError>
    ensures { told_row_answer result ≡ name_row_of rows.now }
{
    front_row(rows, name_row(rows))
}

// Gives the name in the front row.
pub fn name_of(rows: &[u8]) -> &[u8]
    ensures { IsSlice rows.entry
        (range_told (λ (x : NameFields × ℕ). x.0.name) (name_row_of rows.now)) result }
{
    slice_of(
        rows,
        name_row_of(rows).map_or(NO_RANGE, |(row, _)| row.name),
    )
}

// Gives the rows behind the front row.
pub fn behind_name_row(rows: &[u8]) -> &[u8]
    ensures told { result.now ≡ rows_behind rows.now (name_row_of rows.now) }
    ensures place { result.ref_ptr ≡ place_in rows.entry (start_told (λ x. x.1) (name_row_of rows.now)) }
{
    behind_row(rows, name_row_of(rows))
}

// Reads the front row of rows of metadata, judged alone; how a row is laid out depends on the version.
pub fn metadata_row_of(version: u8, rows: &[u8]) -> Result<(MetadataFields, usize), RowError>
    ensures { told_row_answer result ≡ metadata_row_of version rows.now }
{
    if !is_version(version) {
        return Err(RowError::Refused(Refusal {
            fault: Fault::Version,
            offset: 0,
        }));
    }
    front_row(rows, metadata_row(version, rows))
}

// Gives the content in the front row; from version 23 on it is empty.
pub fn metadata_content_of(version: u8, rows: &[u8]) -> &[u8]
    ensures { IsSlice rows.entry
        (range_told (λ (x : MetadataFields × ℕ). x.0.content) (metadata_row_of version rows.now)) result }
{
    slice_of(
        rows,
        metadata_row_of(version, rows).map_or(NO_RANGE, |(row, _)| row.content),
    )
}

// Gives the variables in the front row; in version 22 they are empty.
pub fn metadata_variables_of(version: u8, rows: &[u8]) -> &[u8]
    ensures { IsSlice rows.entry
        (range_told (λ (x : MetadataFields × ℕ). x.0.rows) (metadata_row_of version rows.now)) result }
{
    slice_of(
        rows,
        metadata_row_of(version, rows).map_or(NO_RANGE, |(row, _)| row.rows),
    )
}

// Gives the inventory in the front row; in version 22 it is empty.
pub fn metadata_inventory_of(version: u8, rows: &[u8]) -> &[u8]
    ensures { IsSlice rows.entry
        (range_told (λ (x : MetadataFields × ℕ). x.0.inventory) (metadata_row_of version rows.now)) result }
{
    slice_of(
        rows,
        metadata_row_of(version, rows).map_or(NO_RANGE, |(row, _)| row.inventory),
    )
}

// Gives the rows behind the front row.
pub fn behind_metadata_row(version: u8, rows: &[u8]) -> &[u8]
    ensures told { result.now ≡ rows_behind rows.now (metadata_row_of version rows.now) }
    ensures place { result.ref_ptr
        ≡ place_in rows.entry (start_told (λ x. x.1) (metadata_row_of version rows.now)) }
{
    behind_row(rows, metadata_row_of(version, rows))
}

// Reads the front row of rows of static objects, judged alone.
pub fn object_row_of(rows: &[u8]) -> Result<(ObjectFields, usize), RowError>
    ensures { told_row_answer result ≡ object_row_of rows.now }
{
    front_row(rows, object_row(rows))
}

// Gives the content in the front row.
pub fn object_content_of(rows: &[u8]) -> &[u8]
    ensures { IsSlice rows.entry
        (range_told (λ (x : ObjectFields × ℕ). x.0.content) (object_row_of rows.now)) result }
{
    slice_of(
        rows,
        object_row_of(rows).map_or(NO_RANGE, |(row, _)| row.content),
    )
}

// Gives the rows behind the front row.
pub fn behind_object_row(rows: &[u8]) -> &[u8]
    ensures told { result.now ≡ rows_behind rows.now (object_row_of rows.now) }
    ensures place { result.ref_ptr ≡ place_in rows.entry (start_told (λ x. x.1) (object_row_of rows.now)) }
{
    behind_row(rows, object_row_of(rows))
}

// Reads the front row of rows of timers, judged alone.
pub fn timer_row_of(rows: &[u8]) -> Result<(TimerFields, usize), RowError>
    ensures { told_row_answer result ≡ timer_row_of rows.now }
{
    front_row(rows, timer_row(rows).map(|row| (row, TIMER_ROW_LENGTH)))
}

// Gives the rows behind the front row.
pub fn behind_timer_row(rows: &[u8]) -> &[u8]
    ensures told { result.now ≡ rows_behind rows.now (timer_row_of rows.now) }
    ensures place { result.ref_ptr ≡ place_in rows.entry (start_told (λ x. x.1) (timer_row_of rows.now)) }
{
    behind_row(rows, timer_row_of(rows))
}
