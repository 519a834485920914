// Rows of metadata. `values` says whether the position and the private bytes are judged; where they are not, they may have any value.
ghost use Rattle.std.specs.Prelude.{◌≡◌, false, [], ◌<◌, ◌≤◌};
ghost use Rattle.wire.specs.Read.{done, map_read};
ghost use Rattle.wire.specs.Format.{items};
ghost use Rattle.wire.specs.Formats.{◌▹◌, prefixed};
ghost use Rattle.mapblock.specs.Layout.{metadata_row};
ghost use Rattle.mapblock.specs.MetadataChecks.{position_for, variable_for, metadata_row_for};
ghost use Rattle.mapblock.specs.Rows.{metadata_fields};
ghost use Rattle.mapblock.specs.Told.{told_reach, ended, told_position, told_reading};

use crate::fault::{Fault, Refusal, behind, whole_run_at};
use crate::inventory::inventory;
use crate::positions::{POSITION_LENGTH, position};
use wire::fields::number_at;
use wire::ranges::{NO_RANGE, Range};

// A row's numbers, and where its runs stand in the bytes it was read from. Type and content are version 22's, the others stand from 23 on.
#[derive(Clone, Copy, Debug, PartialEq, Eq, Hash)]
pub struct MetadataFields {
    pub position: u16,
    pub kind: u16,
    pub content: Range,
    pub variables: u32,
    pub rows: Range,
    pub inventory: Range,
}

// A variable's key stands behind its length, a u16.
const KEY_AT: usize = 2;

// The bytes of a variable beside its key and its value: the lengths of both, a u16 and a u32.
const KEY_AND_VALUE_LENGTHS: usize = 6;

// Reads a variable's key and value at the front of the bytes.
fn key_and_value(s: &[u8]) -> Result<usize, Refusal>
    ensures { told_reach result ≡ ended ((prefixed {ends = Fault.Ends} 2 ▹ prefixed 4).read s.now) }
{
    let k = whole_run_at::<u16>(s, 0)?;
    let n = whole_run_at::<u32>(s, KEY_AT + k)?;
    Ok(KEY_AND_VALUE_LENGTHS + k + n)
}

// Reads one variable at the front of the bytes; from version 28 on the private byte follows its value.
fn variable(values: bool, version: u8, s: &[u8]) -> Result<usize, Refusal>
    ensures { told_reach result ≡ ended ((variable_for values version).read s.now) }
{
    let at = key_and_value(s)?;
    if version < 28 {
        return Ok(at);
    }
    let private = number_at::<u8>(s, at).ok_or(Refusal::ends(at))?;
    if values && 1 < private {
        return Err(Refusal {
            fault: Fault::PrivateByte,
            offset: at,
        });
    }
    Ok(at + 1)
}

// Reads so many variables. A count that the bytes cannot hold costs no more than the bytes that are there.
fn variables(values: bool, version: u8, s: &[u8], count: u32) -> Result<usize, Refusal>
    ensures { told_reach result ≡ ended ((items (λ _. variable_for values version) count).read s.now) }
{
    let mut at: usize = 0;
    for _ in 0..count {
        let n = behind(at, variable(values, version, &s[at..]))?;
        at += n;
    }
    Ok(at)
}

// Version 22's row: behind the position its type, a u16, and then its content with a u16 length in front.
const KIND_AT: usize = POSITION_LENGTH;

const CONTENT_LENGTH_AT: usize = 4;

const CONTENT_AT: usize = 6;

// Reads version 22's row behind its position: type and content.
fn old_row(values: bool, version: u8, at: u16, s: &[u8]) -> Result<(MetadataFields, usize), Refusal>
    requires { (version < 23) × ((position_for values).read s.now ≡ done at 2) }
    ensures { told_reading result
        ≡ map_read (metadata_fields version) ((metadata_row_for values version).read s.now) }
{
    let kind = number_at::<u16>(s, KIND_AT).ok_or(Refusal::ends(KIND_AT))?;
    let length = whole_run_at::<u16>(s, CONTENT_LENGTH_AT)?;
    let fields = MetadataFields {
        position: at,
        kind,
        content: Range {
            start: CONTENT_AT,
            length,
        },
        variables: 0,
        rows: NO_RANGE,
        inventory: NO_RANGE,
    };
    Ok((fields, CONTENT_AT + length))
}

// The row from version 23 on: behind the position the number of its variables, a u32, and then the variables.
const COUNT_AT: usize = POSITION_LENGTH;

const VARIABLES_AT: usize = 6;

// Reads the row from version 23 on behind its position: variables and an inventory.
fn new_row(values: bool, version: u8, at: u16, s: &[u8]) -> Result<(MetadataFields, usize), Refusal>
    requires { (23 ≤ version) × ((position_for values).read s.now ≡ done at 2) }
    ensures { told_reading result
        ≡ map_read (metadata_fields version) ((metadata_row_for values version).read s.now) }
{
    let count = number_at::<u32>(s, COUNT_AT).ok_or(Refusal::ends(COUNT_AT))?;
    let n = behind(
        VARIABLES_AT,
        variables(values, version, &s[VARIABLES_AT..], count),
    )?;
    let end = VARIABLES_AT + n;
    let m = behind(end, inventory(&s[end..]))?;
    let fields = MetadataFields {
        position: at,
        kind: 0,
        content: NO_RANGE,
        variables: count,
        rows: Range {
            start: VARIABLES_AT,
            length: n,
        },
        inventory: Range {
            start: end,
            length: m,
        },
    };
    Ok((fields, end + m))
}

// Reads the position at the front of a row.
fn row_position(values: bool, s: &[u8]) -> Result<u16, Fault>
    ensures { told_position result ≡ (position_for values).read s.now }
{
    if values {
        position(s)
    } else {
        number_at::<u16>(s, 0).ok_or(Fault::Ends)
    }
}

// Reads the row at the front of the bytes, alone.
fn row(values: bool, version: u8, s: &[u8]) -> Result<(MetadataFields, usize), Refusal>
    ensures { told_reading result
        ≡ map_read (metadata_fields version) ((metadata_row_for values version).read s.now) }
{
    let p = row_position(values, s)?;
    if version < 23 {
        old_row(values, version, p, s)
    } else {
        new_row(values, version, p, s)
    }
}

// Reads the row at the front of the bytes, judged alone.
pub fn metadata_row(version: u8, s: &[u8]) -> Result<(MetadataFields, usize), Refusal>
    ensures { told_reading result
        ≡ map_read (metadata_fields version) ((metadata_row version []).read s.now) }
{
    row(true, version, s)
}

// Reads it by its framing alone: this tells whether the row is whole, and how long it is.
pub fn metadata_frame(version: u8, s: &[u8]) -> Result<(MetadataFields, usize), Refusal>
    ensures { told_reading result
        ≡ map_read (metadata_fields version) ((metadata_row_for false version).read s.now) }
{
    row(false, version, s)
}
