// Merging two tallies: their rows are walked once to measure the sum, and once to write it.
ghost use Rattle.std.specs.Prelude.{◌≡◌, ◌+◌, ◌^◌, ◌≤◌, ◌<◌, length};
ghost use Rattle.wire.specs.Answer.{Answered};
ghost use Rattle.tally.specs.Tally.{one};
ghost use Rattle.tally.specs.Operations.{merge_of};
ghost use Rattle.tally.specs.Told.{told_merge};
ghost use Rattle.tally.specs.Sums.{side, SumRowIs, MeasuredAs, put_with_count, SumPut, MergedAs};

use crate::check::check;
use crate::head::put_head;
use crate::rows::{COUNT_SIZE, NAME_AT, ROW_OVERHEAD, front_row};
use std::cmp::Ordering;
use wire::heads::HEAD_LENGTH;
use wire::order::compare;
use wire::store::{put_bytes, put_number};

// Why two lists of rows have no sum: a count of it would be too large.
#[derive(Clone, Copy, Debug, PartialEq, Eq, Hash)]
pub struct TooMany;

// The next row of the sum of two lists of rows: how many bytes of either list it takes the place of, its own size, and its count.
#[derive(Clone, Copy, Debug, PartialEq, Eq, Hash)]
pub struct SumRow {
    pub first: usize,
    pub second: usize,
    pub size: usize,
    pub count: u64,
}

// The row that the sum takes from the first list alone, by the length of its name and its count.
fn row_of_first(n: usize, count: u64) -> SumRow
    requires { n + 10 < 2 ^ 64 }
    ensures { result ≡ record { first = n + 10; second = 0; size = n + 10; count = count } }
{
    let size = n + ROW_OVERHEAD;
    SumRow {
        first: size,
        second: 0,
        size,
        count,
    }
}

// The row that the sum takes from the second list alone.
fn row_of_second(n: usize, count: u64) -> SumRow
    requires { n + 10 < 2 ^ 64 }
    ensures { result ≡ record { first = 0; second = n + 10; size = n + 10; count = count } }
{
    let size = n + ROW_OVERHEAD;
    SumRow {
        first: 0,
        second: size,
        size,
        count,
    }
}

// Finds the next row of the sum of two lists of rows, if they are not at their end.
fn sum_row(x: &[u8], y: &[u8]) -> Result<Option<SumRow>, TooMany>
    ensures { SumRowIs x.now y.now result }
{
    match (front_row(x), front_row(y)) {
        (None, None) => Ok(None),
        (Some((n, c)), None) => Ok(Some(row_of_first(n, c))),
        (None, Some((m, d))) => Ok(Some(row_of_second(m, d))),
        (Some((n, c)), Some((m, d))) => {
            let name = &x[NAME_AT..n + NAME_AT];
            let other = &y[NAME_AT..m + NAME_AT];
            match compare(name, other) {
                Ordering::Less => Ok(Some(row_of_first(n, c))),
                Ordering::Greater => Ok(Some(row_of_second(m, d))),
                Ordering::Equal => Ok(Some(SumRow {
                    first: n + ROW_OVERHEAD,
                    second: m + ROW_OVERHEAD,
                    size: n + ROW_OVERHEAD,
                    count: c.checked_add(d).ok_or(TooMany)?,
                })),
            }
        }
    }
}

// The size of the sum of two lists of rows: how many rows it has, and how many bytes.
#[derive(Clone, Copy, Debug, PartialEq, Eq, Hash)]
pub struct SumSize {
    pub rows: u64,
    pub size: usize,
}

// Measures the sum of two lists of rows.
fn measure(a: &[u8], b: &[u8]) -> Result<SumSize, TooMany>
    ensures { MeasuredAs a.now b.now result }
{
    let mut x = a;
    let mut y = b;
    let mut rows = 0;
    let mut size = 0;
    while let Some(row) = sum_row(x, y)? {
        x = &x[row.first..];
        y = &y[row.second..];
        rows += 1;
        size += row.size;
    }
    Ok(SumSize { rows, size })
}

// Puts the row of so many bytes at the front of s, with another count.
fn put_with_count(out: &mut [u8], at: usize, s: &[u8], size: usize, count: u64)
    requires { (8 ≤ size) × (size ≤ length s.now) × (at + size < 2 ^ 64) }
    ensures { out.new ≡ put_with_count at s.now size count out.old }
{
    let lead = size - COUNT_SIZE;
    put_bytes(out, at, &s[..lead]);
    put_number(out, at + lead, count);
}

// Puts the next row of a sum, whose name stands in x, or in y where it takes the place of nothing in x.
fn put_sum_row(out: &mut [u8], at: usize, x: &[u8], y: &[u8], row: SumRow)
    requires { (8 ≤ row.size) × (row.size ≤ length (side row.first x.now y.now))
        × (at + row.size < 2 ^ 64) }
    ensures { out.new
        ≡ put_with_count at (side row.first x.now y.now) row.size row.count out.old }
{
    let named = if row.first == 0 { y } else { x };
    put_with_count(out, at, named, row.size, row.count);
}

// Puts the rows of the sum, which are known to fit.
fn put_rows(out: &mut [u8], a: &[u8], b: &[u8])
    ensures { SumPut a.now b.now out.old out.new }
{
    let mut x = a;
    let mut y = b;
    let mut at = 0;
    while let Ok(Some(row)) = sum_row(x, y) {
        put_sum_row(out, at, x, y, row);
        x = &x[row.first..];
        y = &y[row.second..];
        at += row.size;
    }
}

// Why two tallies are not added.
#[derive(Clone, Copy, Debug, PartialEq, Eq, Hash)]
pub enum MergeError {
    Malformed,
    TooMany,
    NoRoom,
}

// Puts the sum of two lists of rows as a tally, where it fits.
fn merge_rows(a: &[u8], b: &[u8], out: &mut [u8]) -> Result<usize, MergeError>
    ensures { MergedAs a.now b.now out.old out.new result }
{
    let SumSize { rows, size } = measure(a, b).map_err(|_| MergeError::TooMany)?;
    let count = u32::try_from(rows).map_err(|_| MergeError::TooMany)?;
    let room = out
        .len()
        .checked_sub(HEAD_LENGTH)
        .ok_or(MergeError::NoRoom)?;
    if room < size {
        return Err(MergeError::NoRoom);
    }
    put_head(out, count);
    put_rows(&mut out[HEAD_LENGTH..], a, b);
    Ok(size + HEAD_LENGTH)
}

// Adds two tallies by name. The sum is measured before a byte is written, so that a refusal leaves the output as it was.
pub fn merge(a: &[u8], b: &[u8], out: &mut [u8]) -> Result<usize, MergeError>
    ensures { Answered (told_merge result) out.old out.new
        (merge_of one (length out.old) a.now b.now) }
{
    check(a).ok_or(MergeError::Malformed)?;
    check(b).ok_or(MergeError::Malformed)?;
    merge_rows(&a[HEAD_LENGTH..], &b[HEAD_LENGTH..], out)
}
