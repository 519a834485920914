// Rows of a tally, from the front: the front row's count, its name as a slice of what was given, and the rows behind it, which are what
// remains. A function that gives a slice gives an empty one where there is no row; `row_of` then tells why.
ghost use Rattle.std.specs.Prelude.{◌≡◌, [], ℕ};
ghost use Rattle.wire.specs.Answer.{map_answer, bytes_of};
ghost use Rattle.wire.specs.Places.{place_in, start_told};
ghost use Rattle.wire.specs.Read.{to_option};
ghost use Rattle.wire.specs.Walk.{rows_behind};
ghost use Rattle.tally.specs.Tally.{TallyRow, row, one};
ghost use Rattle.tally.specs.Operations.{front_of};
ghost use Rattle.tally.specs.Told.{told_row, told_front, shown_row};
ghost use Rattle.tally.specs.Walks.{row_stored};

use wire::fields::{number_at, run_at};
use wire::store::{put_bytes, put_number};

// Where a row's name begins, behind its length; the size of its count; and both together, which is what a row has beside its name.
pub const NAME_AT: usize = 2;

pub const COUNT_SIZE: usize = 8;

pub const ROW_OVERHEAD: usize = 10;

// The longest name, the largest count and the most rows.
pub const MAX_NAME_LENGTH: usize = 65535;

pub const MAX_COUNT: u64 = u64::MAX;

pub const MAX_ROWS: u32 = u32::MAX;

// Reads the row at the front of some rows, judged alone.
pub fn front_row(s: &[u8]) -> Option<(usize, u64)>
    ensures { told_row s.now result ≡ to_option ((row one []).read s.now) }
{
    let n = run_at::<u16>(s, 0).ok()?;
    let count = number_at::<u64>(s, n + NAME_AT)?;
    if count == 0 {
        return None;
    }
    Some((n, count))
}

// Why a front row is not given.
#[derive(Clone, Copy, Debug, PartialEq, Eq, Hash)]
pub enum RowError {
    NoSuchRow,
    Malformed,
}

// Tells the front row's count and its length. Whether rows are in order is asked of the whole tally.
pub fn row_of(rows: &[u8]) -> Result<(u64, usize), RowError>
    ensures { told_front result ≡ map_answer shown_row (front_of one rows.now) }
{
    if rows.is_empty() {
        return Err(RowError::NoSuchRow);
    }
    let (n, count) = front_row(rows).ok_or(RowError::Malformed)?;
    Ok((count, n + ROW_OVERHEAD))
}

// Gives the name in the front row.
pub fn name_of(rows: &[u8]) -> &[u8]
    ensures told { result.now ≡ bytes_of (λ (x : TallyRow one × ℕ). x.0.name) (front_of one rows.now) }
    ensures place { result.ref_ptr ≡ place_in rows.entry (start_told (λ _. 2) (front_of one rows.now)) }
{
    match front_row(rows) {
        Some((n, _)) => &rows[NAME_AT..n + NAME_AT],
        None => &rows[..0],
    }
}

// Gives what remains behind the front row.
pub fn behind_row(rows: &[u8]) -> &[u8]
    ensures told { result.now ≡ rows_behind rows.now (front_of one rows.now) }
    ensures place { result.ref_ptr
        ≡ place_in rows.entry (start_told (λ (x : TallyRow one × ℕ). x.1) (front_of one rows.now)) }
{
    match front_row(rows) {
        Some((n, _)) => &rows[n + ROW_OVERHEAD..],
        None => &rows[..0],
    }
}

// Puts a row at a place of a buffer, where it fits and its name is none too long; else nothing changes.
pub fn put_row(out: &mut [u8], at: usize, name: &[u8], count: u64)
    ensures { out.new
        ≡ row_stored at (record { name = name.entry.now; count = count }) out.old }
{
    let Ok(length) = u16::try_from(name.len()) else {
        return;
    };
    if out.len().saturating_sub(at) < name.len() + ROW_OVERHEAD {
        return;
    }
    put_number(out, at, length);
    put_bytes(out, at + NAME_AT, name);
    put_number(out, at + NAME_AT + name.len(), count);
}
