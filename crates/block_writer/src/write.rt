// The writer: it measures, and then puts the bytes of the block into a lent buffer. A function that puts a piece answers where the piece ends.
ghost use Rattle.std.specs.Prelude.{◌≡◌, cond, [], ◌++◌, ◌+◌, ◌≤◌, length};
ghost use Rattle.wire.specs.Answer.{Answered};
ghost use Rattle.wire.specs.Bytes.{to_be};
ghost use Rattle.wire.specs.Store.{overwrite, PutAt};
ghost use Rattle.mapblock.specs.Layout.{width, list_version_bytes, list_version_of};
ghost use Rattle.block_writer.specs.BlockParts.{block_parts};
ghost use Rattle.block_writer.specs.Measured.{bytes_for};
ghost use Rattle.block_writer.specs.Parts.{parts_of};
ghost use Rattle.block_writer.specs.Write.{write_of, told_write};
ghost use Rattle.block_writer.specs.Pieces.{opening_bytes, list_bytes, list_if, mapping_bytes, entry_bytes, nodes_bytes, metadata_bytes, early_bytes, late_bytes, front_bytes, rest_bytes};

use crate::counts::RowCounts;
use crate::measure::measure;
use crate::parts::Parts;
use block_reader::read::ReadError;
use mapblock::fault::Refusal;
use mapblock::head::{Head, LIST_COUNTED};
use mapblock::lists::list_version;
use mapblock::nodes::width;
use mapblock::timers::TIMER_ROW_LENGTH_BYTE;
use wire::store::{put_bytes, put_number};

// Puts step 1: version, flags, and from version 27 on the lighting.
fn put_opening(out: &mut [u8], head: Head) -> usize
    requires { length (opening_bytes head) ≤ length out.old }
    ensures { PutAt 0 (opening_bytes head) out.old out.new result }
{
    put_number(out, 0, head.version);
    put_number(out, 1, head.flags);
    if head.version < 27 {
        return 2;
    }
    put_number(out, 2, head.lighting);
    4
}

// Puts a count, and the rows.
fn put_list(out: &mut [u8], at: usize, count: u16, rows: &[u8]) -> usize
    requires { at + length (list_bytes count rows.now) ≤ length out.old }
    ensures { PutAt at (list_bytes count rows.now) out.old out.new result }
{
    put_number(out, at, count);
    put_bytes(out, at + 2, rows);
    at + 2 + rows.len()
}

// Puts the same where the list stands here: a tag before it may say that there is none.
fn put_list_if(here: bool, out: &mut [u8], at: usize, count: u16, rows: &[u8]) -> usize
    requires { at + length (list_if here count rows.now) ≤ length out.old }
    ensures { PutAt at (list_if here count rows.now) out.old out.new result }
{
    if here {
        return put_list(out, at, count, rows);
    }
    at
}

// Puts a byte, and a count and rows behind it.
fn put_byte_and_list(out: &mut [u8], at: usize, byte: u8, count: u16, rows: &[u8]) -> usize
    requires { at + length (to_be 1 byte ++ list_bytes count rows.now) ≤ length out.old }
    ensures { PutAt at (to_be 1 byte ++ list_bytes count rows.now)
        out.old out.new result }
{
    put_number(out, at, byte);
    put_list(out, at + 1, count, rows)
}

// Puts timestamp and names.
fn put_name_mapping(out: &mut [u8], at: usize, timestamp: u32, count: u16, rows: &[u8]) -> usize
    requires { at + length (mapping_bytes timestamp count rows.now) ≤ length out.old }
    ensures { PutAt at (mapping_bytes timestamp count rows.now)
        out.old out.new result }
{
    put_number(out, at, timestamp);
    put_byte_and_list(out, at + 4, 0, count, rows)
}

// Puts param0 in two bytes each. Its bounds were tested once.
fn put_wide(out: &mut [u8], at: usize, param0: &[u16])
    requires { at + length (entry_bytes 2 param0.now) ≤ length out.old }
    ensures { out.new ≡ overwrite at (entry_bytes 2 param0.now) out.old }
{
    for (i, &entry) in param0.iter().enumerate() {
        out[at + 2 * i] = (entry / 256) as u8;
        out[at + 2 * i + 1] = (entry % 256) as u8;
    }
}

// Puts the same in one byte each.
fn put_narrow(out: &mut [u8], at: usize, param0: &[u16])
    requires { at + length (entry_bytes 1 param0.now) ≤ length out.old }
    ensures { out.new ≡ overwrite at (entry_bytes 1 param0.now) out.old }
{
    for (i, &entry) in param0.iter().enumerate() {
        out[at + i] = (entry % 256) as u8;
    }
}

// Puts param0 in the version's width.
fn put_param0(out: &mut [u8], at: usize, version: u8, param0: &[u16]) -> usize
    requires { at + length (entry_bytes (width version) param0.now) ≤ length out.old }
    ensures { PutAt at (entry_bytes (width version) param0.now)
        out.old out.new result }
{
    if version < 24 {
        put_narrow(out, at, param0);
        return at + param0.len();
    }
    put_wide(out, at, param0);
    at + 2 * param0.len()
}

// Puts bytes as they are.
fn put_run(out: &mut [u8], at: usize, run: &[u8]) -> usize
    requires { at + length run.now ≤ length out.old }
    ensures { PutAt at run.now out.old out.new result }
{
    put_bytes(out, at, run);
    at + run.len()
}

// Puts the two widths, and the three lists.
fn put_nodes(
    out: &mut [u8],
    at: usize,
    version: u8,
    param0: &[u16],
    param1: &[u8],
    param2: &[u8],
) -> usize
    requires { at + length (nodes_bytes version param0.now param1.now param2.now) ≤ length out.old }
    ensures { PutAt at (nodes_bytes version param0.now param1.now param2.now)
        out.old out.new result }
{
    put_number(out, at, width(version) as u8);
    put_number(out, at + 1, 2u8);
    let first = put_param0(out, at + 2, version, param0);
    let second = put_run(out, first, param1);
    put_run(out, second, param2)
}

// Gives the list version that a head's form of the metadata has.
fn list_version_of(head: Head) -> u8
    ensures { result ≡ list_version_of head.version head.form }
{
    if head.form != LIST_COUNTED {
        return 0;
    }
    list_version(head.version)
}

// Puts a list version of metadata: in version 22 it is a u16, from 23 on a byte.
fn put_list_version(out: &mut [u8], at: usize, version: u8, value: u8) -> usize
    requires { at + list_version_bytes version ≤ length out.old }
    ensures { PutAt at (to_be (list_version_bytes version) value) out.old out.new result }
{
    if version < 23 {
        put_number(out, at, u16::from(value));
        return at + 2;
    }
    put_number(out, at, value);
    at + 1
}

// Puts the metadata list in the head's form.
fn put_metadata(out: &mut [u8], at: usize, head: Head, count: u16, rows: &[u8]) -> usize
    requires { at + length (metadata_bytes head.version head.form count rows.now) ≤ length out.old }
    ensures { PutAt at (metadata_bytes head.version head.form count rows.now)
        out.old out.new result }
{
    let rows_at = put_list_version(out, at, head.version, list_version_of(head));
    put_list_if(head.form == LIST_COUNTED, out, rows_at, count, rows)
}

// Puts what follows the metadata: version 24's timer byte and timers, version 23's 0.
fn put_early(out: &mut [u8], at: usize, head: Head, count: u16, rows: &[u8]) -> usize
    requires { at + length (early_bytes head.version head.timer count rows.now) ≤ length out.old }
    ensures { PutAt at (early_bytes head.version head.timer count rows.now)
        out.old out.new result }
{
    match head.version {
        24 => {
            put_number(out, at, head.timer);
            put_list_if(head.timer == 1, out, at + 1, count, rows)
        }
        23 => {
            put_number(out, at, 0u8);
            at + 1
        }
        _ => at,
    }
}

// Puts the timers at the end, from version 25 on.
fn put_late(out: &mut [u8], at: usize, version: u8, count: u16, rows: &[u8]) -> usize
    requires { at + length (late_bytes version count rows.now) ≤ length out.old }
    ensures { PutAt at (late_bytes version count rows.now) out.old out.new result }
{
    if version < 25 {
        return at;
    }
    put_byte_and_list(out, at, TIMER_ROW_LENGTH_BYTE, count, rows)
}

// Puts timestamp and names where they stand here: in front in version 29, behind in those before.
fn put_name_mapping_if(
    here: bool,
    out: &mut [u8],
    at: usize,
    timestamp: u32,
    count: u16,
    rows: &[u8],
) -> usize
    requires { at + length (cond here (mapping_bytes timestamp count rows.now) []) ≤ length out.old }
    ensures { PutAt at (cond here (mapping_bytes timestamp count rows.now) [])
        out.old out.new result }
{
    if here {
        return put_name_mapping(out, at, timestamp, count, rows);
    }
    at
}

// Puts steps 1 to 4.
fn put_front(out: &mut [u8], parts: &Parts, counts: RowCounts) -> usize
    requires { length (front_bytes parts.now.head counts.names parts.now.names.now
        parts.now.param0.now parts.now.param1.now parts.now.param2.now) ≤ length out.old }
    ensures { PutAt 0 (front_bytes parts.now.head counts.names parts.now.names.now
        parts.now.param0.now parts.now.param1.now parts.now.param2.now)
        out.old out.new result }
{
    let head = parts.head;
    let opened = put_opening(out, head);
    let named = put_name_mapping_if(
        29 <= head.version,
        out,
        opened,
        head.timestamp,
        counts.names,
        parts.names,
    );
    put_nodes(
        out,
        named,
        head.version,
        parts.param0,
        parts.param1,
        parts.param2,
    )
}

// Puts steps 5 to 8.
fn put_rest(out: &mut [u8], at: usize, parts: &Parts, counts: RowCounts) -> usize
    requires { at + length (rest_bytes parts.now.head counts parts.now.names.now parts.now.metadata.now
        parts.now.objects.now parts.now.timers.now) ≤ length out.old }
    ensures { PutAt at (rest_bytes parts.now.head counts parts.now.names.now parts.now.metadata.now
        parts.now.objects.now parts.now.timers.now)
        out.old out.new result }
{
    let head = parts.head;
    let first = put_metadata(out, at, head, counts.metadata, parts.metadata);
    let second = put_early(out, first, head, counts.timers, parts.timers);
    let third = put_byte_and_list(out, second, 0, counts.objects, parts.objects);
    let fourth = put_name_mapping_if(
        head.version < 29,
        out,
        third,
        head.timestamp,
        counts.names,
        parts.names,
    );
    put_late(out, fourth, head.version, counts.timers, parts.timers)
}

// Puts the whole block at the front of the buffer.
fn put_block(out: &mut [u8], parts: &Parts, counts: RowCounts)
    requires { length (bytes_for (parts_of parts.now) counts) ≤ length out.old }
    ensures { out.new ≡ overwrite 0 (bytes_for (parts_of parts.now) counts) out.old }
{
    let at = put_front(out, parts, counts);
    put_rest(out, at, parts, counts);
}

// Why a block is not written.
#[derive(Clone, Copy, Debug, PartialEq, Eq, Hash)]
pub enum WriteError {
    // The parts do not fit each other.
    Misfit,
    // What the reader would say of the bytes.
    Refused(Refusal),
    NoRoom,
}

impl From<ReadError> for WriteError {
    ghost use Rattle.std.specs.Prelude.{◌≡◌};
    ghost use Rattle.block_writer.specs.Write.{write_error};

    ghost from_gives = { λ e r. r ≡ write_error e };

    fn from(error: ReadError) -> WriteError {
        match error {
            ReadError::Misfit => WriteError::Misfit,
            ReadError::Refused(refusal) => WriteError::Refused(refusal),
        }
    }
}

// Writes the block that head, lists and sections make to the front of a lent buffer. A refusal leaves the buffer as it was.
pub fn write(
    head: Head,
    param0: &[u16],
    param1: &[u8],
    param2: &[u8],
    names: &[u8],
    metadata: &[u8],
    objects: &[u8],
    timers: &[u8],
    out: &mut [u8],
) -> Result<usize, WriteError>
    ensures { Answered (told_write result) out.old out.new
        (write_of (block_parts head param0.now param1.now param2.now
        names.now metadata.now objects.now timers.now)
        (length out.old)) }
{
    let (counts, n) = measure(
        head, param0, param1, param2, names, metadata, objects, timers,
    )?;
    if out.len() < n {
        return Err(WriteError::NoRoom);
    }
    let parts = Parts {
        head,
        param0,
        param1,
        param2,
        names,
        metadata,
        objects,
        timers,
    };
    put_block(out, &parts, counts);
    Ok(n)
}
