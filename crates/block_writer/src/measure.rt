// The measuring pass: whether the parts fit, and what the reader would say of the bytes that are to be written, list by list and without them.
ghost use Rattle.std.specs.Prelude.{◌≡◌, List, true, ℕ, ◌+◌, ◌<◌, ◌≤◌, length};
ghost use Rattle.wire.specs.Told.{option_of};
ghost use Rattle.wire.specs.Read.{done, shift, reach};
ghost use Rattle.wire.specs.Formats.{listed};
ghost use Rattle.mapblock.specs.Data.{NameRow, MetadataRow, ObjectRow, TimerRow, NameMapping, Nodes};
ghost use Rattle.mapblock.specs.Layout.{is_version, metadata, nodes, timer_row, early_timers, late_timers};
ghost use Rattle.wire.specs.Ranges.{InReach};
ghost use Rattle.mapblock.specs.Told.{told_reach};
ghost use Rattle.block_writer.specs.Frames.{name_frame, metadata_frame, timer_frame};
ghost use Rattle.block_writer.specs.BlockParts.{block_parts, WellTyped, head_fits, param0_fits, metadata_fits, timers_fit};
ghost use Rattle.block_writer.specs.Parts.{parts_of};
ghost use Rattle.block_writer.specs.Sections.{Rows, SectionRows};
ghost use Rattle.block_writer.specs.Measured.{MeasuredAs};
ghost use Rattle.block_writer.specs.Judging.{verdict_on, Small, metadata_on, timers_early, timers_late, timers_on, opening_length, lists_length, MappingJudged, FrontJudged, EndingJudged, RestJudged, Judgeable, BlockJudged, first_unmapped_among};

use crate::counts::{RowCounts, count_all};
use crate::fit::fit;
use crate::parts::Parts;
use block_reader::read::ReadError;
use block_reader::scan::metadata_head;
use mapblock::fault::{Fault, Refusal, behind};
use mapblock::head::{Head, LIST_COUNTED, is_version};
use mapblock::lists::LIST_HEAD_LENGTH;
use mapblock::names::{NAMES_HEAD_LENGTH, name_rows};
use mapblock::nodes::{IDS, NODES, content_id, width};
use mapblock::rows::{ListKind, rows};

// Tells what was said of bytes from a place so many bytes before them.
fn shift(at: usize, r: Result<usize, Refusal>) -> Result<usize, Refusal>
    requires { InReach (at + reach (told_reach r)) }
    ensures { told_reach result ≡ shift at (λ u. u) (told_reach r) }
{
    Ok(at + behind(at, r)?)
}

// Judges timestamp and names, and marks their ids.
fn judge_name_mapping(names: &[u8], count: u16, ids: &mut [u8; IDS]) -> Result<usize, Refusal>
    ensures told { (x : NameMapping) → x.timestamp < 4294967296
        → Rows name_frame names.now count x.names
        → MappingJudged ids.old ids.new x (told_reach result) }
    ensures bounded { reach (told_reach result) ≤ 7 + length names.now }
{
    shift(NAMES_HEAD_LENGTH, name_rows(names, count, ids))
}

// Judges the metadata list: its list version, and the rows where they have a count.
fn judge_metadata(head: Head, list: &[u8], count: u16) -> Result<usize, Refusal>
    ensures told { (l : List MetadataRow) → Rows (metadata_frame head.version) list.now count l
        → head_fits head ≡ true
        → told_reach result ≡ verdict_on (metadata head.version) (metadata_on head l) }
    ensures bounded { reach (told_reach result) ≤ 4 + length list.now }
{
    let before_rows = metadata_head(head.version, head.form);
    if head.form != LIST_COUNTED {
        return Ok(before_rows);
    }
    shift(
        before_rows,
        rows(ListKind::Metadata, head.version, list, count),
    )
}

// Judges a count of timers and their rows.
fn judge_timers(version: u8, timers: &[u8], count: u16) -> Result<usize, Refusal>
    ensures told { (l : List TimerRow) → Rows timer_frame timers.now count l
        → told_reach result ≡ verdict_on (listed 2 timer_row) l }
    ensures bounded { reach (told_reach result) ≤ 2 + length timers.now }
{
    shift(2, rows(ListKind::Timers, version, timers, count))
}

// Judges version 24's timer byte, and its timers where that is 1.
fn judge_timers_24(head: Head, timers: &[u8], count: u16) -> Result<usize, Refusal>
    ensures told { (l : List TimerRow) → Rows timer_frame timers.now count l
        → told_reach result ≡ verdict_on (early_timers 24) (timers_on head l) }
    ensures bounded { reach (told_reach result) ≤ 3 + length timers.now }
{
    match head.timer {
        0 => Ok(1),
        1 => shift(1, judge_timers(24, timers, count)),
        _ => Err(Fault::TimerByte.into()),
    }
}

// Judges what follows the metadata: version 24's timers, version 23's byte.
fn judge_early_timers(head: Head, timers: &[u8], count: u16) -> Result<usize, Refusal>
    ensures told { (l : List TimerRow) → Rows timer_frame timers.now count l
        → head_fits head ≡ true → timers_fit head timers.now ≡ true
        → told_reach result ≡ verdict_on (early_timers head.version) (timers_early head l) }
    ensures bounded { reach (told_reach result) ≤ 3 + length timers.now }
{
    match head.version {
        24 => judge_timers_24(head, timers, count),
        23 => Ok(1),
        _ => Ok(0),
    }
}

// Judges the timers at the end, from version 25 on.
fn judge_late_timers(head: Head, timers: &[u8], count: u16) -> Result<usize, Refusal>
    ensures told { (l : List TimerRow) → Rows timer_frame timers.now count l → head_fits head ≡ true
        → told_reach result ≡ verdict_on (late_timers head.version) (timers_late head l) }
    ensures bounded { reach (told_reach result) ≤ 3 + length timers.now }
{
    if head.version < 25 {
        return Ok(0);
    }
    shift(1, judge_timers(head.version, timers, count))
}

// Judges what stands behind the static objects: names before version 29, and the timers at the end.
fn judge_ending(parts: &Parts, counts: RowCounts, ids: &mut [u8; IDS]) -> Result<usize, Refusal>
    requires typed { WellTyped (parts_of parts.now) }
    requires small { Small parts.now.names.now × (Small parts.now.objects.now × Small parts.now.timers.now) }
    ensures told { (l : List NameRow) (k : List TimerRow)
        → Rows name_frame parts.now.names.now counts.names l
        → Rows timer_frame parts.now.timers.now counts.timers k
        → head_fits parts.now.head ≡ true
        → EndingJudged ids.old ids.new parts.now.head l k (told_reach result) }
    ensures bounded { reach (told_reach result) ≤ 10
        + length parts.now.names.now + length parts.now.timers.now }
{
    if 29 <= parts.head.version {
        return judge_late_timers(parts.head, parts.timers, counts.timers);
    }
    let n = judge_name_mapping(parts.names, counts.names, ids)?;
    shift(
        n,
        judge_late_timers(parts.head, parts.timers, counts.timers),
    )
}

// Judges what follows the node data; of static objects the reader refuses none.
fn judge_rest(parts: &Parts, counts: RowCounts, ids: &mut [u8; IDS]) -> Result<usize, Refusal>
    requires typed { WellTyped (parts_of parts.now) }
    requires small { Small parts.now.names.now × (Small parts.now.objects.now × Small parts.now.timers.now) }
    ensures told { (l : List NameRow) (m : List MetadataRow) (o : List ObjectRow) (k : List TimerRow)
        → SectionRows parts.now.head.version parts.now.names.now parts.now.metadata.now parts.now.objects.now
        parts.now.timers.now counts l m o k
        → head_fits parts.now.head ≡ true → metadata_fits parts.now.head parts.now.metadata.now ≡ true
        → timers_fit parts.now.head parts.now.timers.now ≡ true
        → RestJudged ids.old ids.new parts.now.head l m o k (told_reach result) }
    ensures bounded { reach (told_reach result) ≤ 20
        + length parts.now.metadata.now + length parts.now.names.now + length parts.now.objects.now
        + length parts.now.timers.now + length parts.now.timers.now }
{
    let a = judge_metadata(parts.head, parts.metadata, counts.metadata)?;
    let b = shift(
        a,
        judge_early_timers(parts.head, parts.timers, counts.timers),
    )?;
    let at = b + LIST_HEAD_LENGTH + parts.objects.len();
    shift(at, judge_ending(parts, counts, ids))
}

// Tells how many bytes step 1 has.
fn opening_length(version: u8) -> usize
    ensures { result ≡ opening_length version }
{
    if version < 27 { 2 } else { 4 }
}

// Tells how many bytes the param lists have.
fn lists_length(version: u8) -> usize
    ensures { result ≡ lists_length version }
{
    NODES * width(version) + 2 * NODES
}

// Judges the block up to the end of the node data. In version 29 it marks the ids of the names.
fn judge_front(head: Head, names: &[u8], count: u16, ids: &mut [u8; IDS]) -> Result<usize, Refusal>
    requires { Small names.now }
    ensures told { (l : List NameRow) (n : Nodes) → Rows name_frame names.now count l
        → is_version head.version ≡ true → head_fits head ≡ true → (nodes head.version).Ok n
        → FrontJudged ids.old ids.new head l n (told_reach result) }
    ensures bounded { reach (told_reach result) ≤ 16397 + length names.now }
    ensures holds_lists { (n : ℕ) → told_reach result ≡ done tt n → lists_length head.version ≤ n }
{
    let opening = opening_length(head.version);
    let nodes = 2 + lists_length(head.version);
    if head.version < 29 {
        return Ok(opening + nodes);
    }
    let n = shift(opening, judge_name_mapping(names, count, ids))?;
    Ok(n + nodes)
}

// Finds the first node whose content id is not marked as mapped.
fn first_unmapped(version: u8, param0: &[u16], param2: &[u8], ids: &[u8; IDS]) -> Option<usize>
    requires { (length param0.now ≡ 4096) × (length param2.now ≡ 4096)
        × (param0_fits version param0.now ≡ true) }
    ensures { option_of result
        ≡ first_unmapped_among version param0.now param2.now ids.now }
{
    for i in 0..NODES {
        if ids[content_id(version, param0[i], param2[i])] == 0 {
            return Some(i);
        }
    }
    None
}

// Judges the whole block: its front, its rest, and then the content ids, which the reader tests last.
fn judge(parts: &Parts, counts: RowCounts) -> Result<usize, Refusal>
    requires { Judgeable (parts_of parts.now) }
    ensures { BlockJudged (parts_of parts.now) counts (told_reach result) }
{
    let mut ids = [0u8; IDS];
    let version = parts.head.version;
    let a = judge_front(parts.head, parts.names, counts.names, &mut ids)?;
    let n = shift(a, judge_rest(parts, counts, &mut ids))?;
    match first_unmapped(version, parts.param0, parts.param2, &ids) {
        None => Ok(n),
        Some(i) => Err(Refusal {
            fault: Fault::IdUnmapped,
            offset: a - lists_length(version) + width(version) * i,
        }),
    }
}

// Measures the block that the parts make, before a byte of it is written.
fn measure_parts(parts: &Parts) -> Result<(RowCounts, usize), ReadError>
    requires { WellTyped (parts_of parts.now) }
    ensures { MeasuredAs (parts_of parts.now) result }
{
    if !is_version(parts.head.version) {
        return Err(ReadError::Refused(Fault::Version.into()));
    }
    if !fit(parts) {
        return Err(ReadError::Misfit);
    }
    let counts = count_all(parts).ok_or(ReadError::Misfit)?;
    let n = judge(parts, counts)?;
    Ok((counts, n))
}

// Measures the block that head, lists and sections make, and judges it.
pub(crate) fn measure(
    head: Head,
    param0: &[u16],
    param1: &[u8],
    param2: &[u8],
    names: &[u8],
    metadata: &[u8],
    objects: &[u8],
    timers: &[u8],
) -> Result<(RowCounts, usize), ReadError>
    ensures { MeasuredAs (block_parts head param0.now param1.now param2.now
        names.now metadata.now objects.now timers.now) result }
{
    measure_parts(&Parts {
        head,
        param0,
        param1,
        param2,
        names,
        metadata,
        objects,
        timers,
    })
}
