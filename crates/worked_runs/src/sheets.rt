// Sheets of one block, and of two.
ghost use Rattle.std.specs.Prelude.{◌+◌, ◌≤◌};

use crate::blocks::{AIR, ALL_ZERO, ROOM, front, head, put_block};
use anowhetele::answer::AnowAnswer;
use anowhetele::metering::anow_tally_sheet;
use position::lot::Lot;
use position::span::Span;
use sheet::records::{BLOCK_AT, LENGTH_AT};
use wire::heads::{HEAD_LENGTH, put_head};
use wire::store::{put_bytes, put_number};

// Writes a record at a place, and tells where it ends, at most BLOCK_AT and ROOM further on. All nodes of its block are of id 0.
fn put_record(sheet: &mut [u8], at: usize, key: i64, timestamp: u32, names: &[u8]) -> usize
    requires { at ≤ 65536 }
    ensures { result ≤ at + 16512 }
{
    let mut block = [0u8; ROOM];
    let n = put_block(head(29, 0, timestamp), ALL_ZERO, names, &mut block);
    put_number(sheet, at, key);
    put_number(sheet, at + LENGTH_AT, n as u32);
    put_bytes(sheet, at + BLOCK_AT, &block[..n]);
    at + BLOCK_AT + n
}

// Writes a sheet of one record, a block of air saved at a second, and tells its length.
pub(crate) fn put_one(sheet: &mut [u8], key: i64, timestamp: u32) -> usize {
    put_head(sheet, b"WSH", 1);
    put_record(sheet, HEAD_LENGTH, key, timestamp, &AIR)
}

// Tallies a sheet of two records: a block of air, and then one with names of its own.
pub(crate) fn tally_two(key: i64, next: i64, names: &[u8], out: &mut [u8]) -> AnowAnswer {
    let mut sheet = [0u8; 2 * ROOM];
    let mut spare = [0u8; 256];
    put_head(&mut sheet, b"WSH", 2);
    let middle = put_record(&mut sheet, HEAD_LENGTH, key, 0, &AIR);
    let end = put_record(&mut sheet, middle, next, 0, names);
    anow_tally_sheet(
        front(&sheet, end),
        Lot::WORLD,
        Span::ALL_TIME,
        out,
        &mut spare,
    )
}
