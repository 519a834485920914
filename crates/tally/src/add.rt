// Adding one named count to a tally, in the caller's buffer.
ghost use Rattle.std.specs.Prelude.{◌≡◌, ◌+◌, ◌≤◌, ◌<◌, length};
ghost use Rattle.wire.specs.Answer.{Answered};
ghost use Rattle.tally.specs.Tally.{one};
ghost use Rattle.tally.specs.Operations.{add_of};
ghost use Rattle.tally.specs.Told.{told_add};
ghost use Rattle.tally.specs.LookedUp.{row_inserted, AddReady, AddedAs};

use crate::check::check;
use crate::lookup::{Lookup, look_up};
use crate::rows::{MAX_NAME_LENGTH, NAME_AT, ROW_OVERHEAD, put_row};
use wire::heads::{COUNT_AT, HEAD_LENGTH};
use wire::store::{move_back, put_number};

// Puts a new row in front of the first n bytes of a buffer, which move back.
fn insert_row(tail: &mut [u8], n: usize, name: &[u8], count: u64)
    requires { (length name.now < 65536) × (n + (length name.now + 10) ≤ length tail.old) }
    ensures { tail.new
        ≡ row_inserted n (record { name = name.entry.now; count = count }) tail.old }
{
    move_back(tail, n, name.len() + ROW_OVERHEAD);
    put_row(tail, 0, name, count);
}

// Why a count is not added.
#[derive(Clone, Copy, Debug, PartialEq, Eq, Hash)]
pub enum AddError {
    NameTooLong,
    Malformed,
    TooMany,
    NoRoom,
}

// Adds a count to a tally of so many rows in the first `used` bytes of a buffer.
fn add_row(
    buffer: &mut [u8],
    used: usize,
    rows: u32,
    name: &[u8],
    count: u64,
) -> Result<usize, AddError>
    requires { AddReady buffer.old used rows (record { name = name.now; count = count }) }
    ensures { AddedAs buffer.old buffer.new used
        (record { name = name.entry.now; count = count }) result }
{
    match look_up(&buffer[HEAD_LENGTH..used], name) {
        Lookup::Present { at, count: before } => {
            let sum = before.checked_add(count).ok_or(AddError::TooMany)?;
            put_number(buffer, at + HEAD_LENGTH + NAME_AT + name.len(), sum);
            Ok(used)
        }
        Lookup::Absent(at) => {
            let more = rows.checked_add(1).ok_or(AddError::TooMany)?;
            let size = name.len() + ROW_OVERHEAD;
            if buffer.len() - used < size {
                return Err(AddError::NoRoom);
            }
            let place = at + HEAD_LENGTH;
            insert_row(&mut buffer[place..], used - place, name, count);
            put_number(buffer, COUNT_AT, more);
            Ok(used + size)
        }
    }
}

// Adds a count to a name in the tally that the first `used` bytes of a buffer are.
pub fn add(buffer: &mut [u8], used: usize, name: &[u8], count: u64) -> Result<usize, AddError>
    ensures { Answered (told_add result) buffer.old buffer.new
        (add_of one buffer.old used (record { name = name.entry.now; count = count })) }
{
    if MAX_NAME_LENGTH < name.len() {
        return Err(AddError::NameTooLong);
    }
    let tally = buffer.get(..used).ok_or(AddError::Malformed)?;
    let rows = check(tally).ok_or(AddError::Malformed)?;
    if count == 0 {
        return Ok(used);
    }
    add_row(buffer, used, rows, name, count)
}
