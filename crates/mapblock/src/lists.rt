// The lists of a block that are neither names nor nodes: metadata, static objects, timers.
ghost use Rattle.std.specs.Prelude.{◌≡◌, ◌≤◌, length, drop};
ghost use Rattle.wire.specs.Read.{map_read, shift};
ghost use Rattle.wire.specs.Formats.{number, fixed, listed};
ghost use Rattle.wire.specs.Told.{short, told_number};
ghost use Rattle.mapblock.specs.ListKinds.{row_after};
ghost use Rattle.mapblock.specs.Layout.{list_version_bytes, list_version, is_zero_form, metadata, objects, early_timers, late_timers};
ghost use Rattle.mapblock.specs.Told.{told_reach, ended, list_form_in, timer_byte, told_reading};

use crate::fault::{Fault, Refusal, behind};
use crate::head::{LIST_COUNTED, LIST_ZERO};
use crate::rows::{ListKind, listed};
use crate::timers::TIMER_ROW_LENGTH_BYTE;
use wire::fields::number_at;

// The bytes before the rows of such a list: a byte and a count.
pub const LIST_HEAD_LENGTH: usize = 3;

// Reads a list behind a byte that is fixed: a count and so many rows.
fn fixed_list(
    kind: ListKind,
    version: u8,
    s: &[u8],
    value: u8,
    fault: Fault,
) -> Result<usize, Refusal>
    ensures { told_reach result
        ≡ ended ((fixed 1 value fault (listed 2 (row_after kind version))).read s.now) }
{
    let v = number_at::<u8>(s, 0).ok_or(Refusal::ends(0))?;
    if v != value {
        return Err(Refusal::from(fault));
    }
    let n = behind(1, listed(kind, version, &s[1..]))?;
    Ok(1 + n)
}

// Reads the list behind a tag of so many bytes: a count and so many rows.
fn list_behind(
    tag: u8,
    at: usize,
    kind: ListKind,
    version: u8,
    s: &[u8],
) -> Result<(u8, usize), Refusal>
    requires { at ≤ length s.now }
    ensures { told_reading result
        ≡ shift at (λ _. tag) ((listed 2 (row_after kind version)).read (drop at s.now)) }
{
    let n = behind(at, listed(kind, version, &s[at..]))?;
    Ok((tag, at + n))
}

// Gives the number of bytes of a metadata list's version.
pub fn list_version_length(version: u8) -> usize
    ensures { result ≡ list_version_bytes version }
{
    if version < 23 { 2 } else { 1 }
}

// Gives the list version of metadata that has a count.
pub fn list_version(version: u8) -> u8
    ensures { result ≡ list_version version }
{
    if version < 28 { 1 } else { 2 }
}

// Reads the list version of metadata: in version 22 a u16, from 23 on a byte.
fn list_version_at(version: u8, s: &[u8]) -> Option<u16>
    ensures { told_number (list_version_bytes version) result
        ≡ (number {ends = short} (list_version_bytes version)).read s.now }
{
    if version < 23 {
        number_at::<u16>(s, 0)
    } else {
        number_at::<u8>(s, 0).map(u16::from)
    }
}

// Tells whether a list version stands for a list of none, without a count.
fn is_zero_form(version: u8, v: u16) -> bool
    ensures { result ≡ is_zero_form version v }
{
    v == 0 && 23 <= version
}

// Reads the metadata, step 5 of the layout, and tells its form and where it ends.
pub fn metadata_list(version: u8, s: &[u8]) -> Result<(u8, usize), Refusal>
    ensures { told_reading result ≡ map_read list_form_in ((metadata version).read s.now) }
{
    let v = list_version_at(version, s).ok_or(Refusal::ends(0))?;
    let at = list_version_length(version);
    if v == u16::from(list_version(version)) {
        return list_behind(LIST_COUNTED, at, ListKind::Metadata, version, s);
    }
    if is_zero_form(version, v) {
        return Ok((LIST_ZERO, at));
    }
    Err(Refusal::from(Fault::MetadataVersion))
}

// Reads the static objects, step 6, and tells where they end.
pub fn object_list(version: u8, s: &[u8]) -> Result<usize, Refusal>
    ensures { told_reach result ≡ ended (objects.read s.now) }
{
    fixed_list(ListKind::Objects, version, s, 0, Fault::ObjectVersion)
}

// Reads version 24's timer byte, 0 or 1, and with 1 a list of timers.
fn timers_of_24(s: &[u8]) -> Result<(u8, usize), Refusal>
    ensures { told_reading result ≡ map_read timer_byte ((early_timers 24).read s.now) }
{
    let byte = number_at::<u8>(s, 0).ok_or(Refusal::ends(0))?;
    match byte {
        0 => Ok((0, 1)),
        1 => list_behind(1, 1, ListKind::Timers, 24, s),
        _ => Err(Refusal::from(Fault::TimerByte)),
    }
}

// Reads version 23's byte behind the metadata, which is 0.
fn byte_of_23(s: &[u8]) -> Result<(u8, usize), Refusal>
    ensures { told_reading result ≡ map_read timer_byte ((early_timers 23).read s.now) }
{
    let byte = number_at::<u8>(s, 0).ok_or(Refusal::ends(0))?;
    if byte != 0 {
        return Err(Refusal::from(Fault::ByteOf23));
    }
    Ok((0, 1))
}

// Reads what follows the metadata: it depends on the version, and from 25 on it is nothing.
pub fn early_timers(version: u8, s: &[u8]) -> Result<(u8, usize), Refusal>
    ensures { told_reading result ≡ map_read timer_byte ((early_timers version).read s.now) }
{
    match version {
        23 => byte_of_23(s),
        24 => timers_of_24(s),
        _ => Ok((0, 0)),
    }
}

// Reads the timers at the end, step 8, which stand there from version 25 on.
pub fn late_timers(version: u8, s: &[u8]) -> Result<usize, Refusal>
    ensures { told_reach result ≡ ended ((late_timers version).read s.now) }
{
    if version < 25 {
        return Ok(0);
    }
    fixed_list(
        ListKind::Timers,
        version,
        s,
        TIMER_ROW_LENGTH_BYTE,
        Fault::TimerRowLength,
    )
}
