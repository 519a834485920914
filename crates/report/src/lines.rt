// The text of a tally: a line with the number of its rows, and a line for each row. The rows are walked once to measure their lines, and once
// to write them.
ghost use Rattle.std.specs.Prelude.{◌+◌, ◌≤◌, length};
ghost use Rattle.wire.specs.Answer.{Answered};
ghost use Rattle.wire.specs.Store.{PutAt};
ghost use Rattle.report.specs.Text.{line, opening, tally_text_of};
ghost use Rattle.report.specs.Told.{told_text, LinesFit, HasRoom, LinesPut};

use crate::decimal::{decimal_length, put_decimal};
use crate::text::TextError;
use tally::check::check;
use tally::rows::{NAME_AT, ROW_OVERHEAD, front_row};
use wire::heads::HEAD_LENGTH;
use wire::store::put_bytes;

// Where the number of rows stands, behind `TLY 1 rows `.
const COUNT_AT: usize = 11;

// What a line has beside its digits and its name: a space and a newline.
const MARKS: usize = 2;

// Tells whether the lines of rows fit into a room.
fn lines_fit(rows: &[u8], room: usize) -> bool
    ensures { LinesFit rows.now room result }
{
    let mut rest = rows;
    let mut left = room;
    while let Some((n, count)) = front_row(rest) {
        let Some(more) = left.checked_sub(decimal_length(count) + n + MARKS) else {
            return false;
        };
        left = more;
        rest = &rest[n + ROW_OVERHEAD..];
    }
    true
}

// Puts the count, a space, the name and a newline at a place, and tells where they end.
fn put_line(out: &mut [u8], at: usize, name: &[u8], count: u64) -> usize
    requires { at + length (line (record { name = name.now; count = count })) ≤ length out.old }
    ensures { PutAt at (line (record { name = name.entry.now; count = count }))
        out.old out.new result }
{
    let space = at + put_decimal(out, at, count);
    put_bytes(out, space, b" ");
    put_bytes(out, space + 1, name);
    let end = space + 1 + name.len();
    put_bytes(out, end, b"\n");
    end + 1
}

// Puts the lines of rows from a place on, and tells where they end.
fn put_lines(out: &mut [u8], from: usize, rows: &[u8]) -> usize
    requires { HasRoom from rows.now (length out.old) }
    ensures { LinesPut from rows.now out.old out.new result }
{
    let mut rest = rows;
    let mut at = from;
    while let Some((n, count)) = front_row(rest) {
        at = put_line(out, at, &rest[NAME_AT..n + NAME_AT], count);
        rest = &rest[n + ROW_OVERHEAD..];
    }
    at
}

// Puts `TLY 1 rows N` and a newline at the front, and tells where they end.
fn put_opening(out: &mut [u8], rows: u64) -> usize
    requires { length (opening rows) ≤ length out.old }
    ensures { PutAt 0 (opening rows) out.old out.new result }
{
    put_bytes(out, 0, b"TLY 1 rows ");
    let end = COUNT_AT + put_decimal(out, COUNT_AT, rows);
    put_bytes(out, end, b"\n");
    end + 1
}

// Puts the text of a tally: a line with the number of rows, and a line for each. It measures the text before it puts a byte.
pub fn tally_text(t: &[u8], out: &mut [u8]) -> Result<usize, TextError>
    ensures { Answered (told_text result) out.old out.new
        (tally_text_of (length out.old) t.now) }
{
    let count = check(t).ok_or(TextError::Malformed)?;
    let rows = u64::from(count);
    let body = &t[HEAD_LENGTH..];
    let head = COUNT_AT + decimal_length(rows) + 1;
    let room = out.len().checked_sub(head).ok_or(TextError::NoRoom)?;
    if !lines_fit(body, room) {
        return Err(TextError::NoRoom);
    }
    let at = put_opening(out, rows);
    Ok(put_lines(out, at, body))
}
