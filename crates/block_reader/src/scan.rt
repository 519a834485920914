// One walk over a block judges it and tells where things are; reader, sections and node questions stand on it.
ghost use Rattle.std.specs.Prelude.{◌≡◌, List, Bool, ℕ, ◌+◌, ◌-◌, ◌<◌, ◌≤◌, length, drop};
ghost use Rattle.mapblock.specs.Told.{told_reading};
ghost use Rattle.wire.specs.Read.{done, map_read};
ghost use Rattle.mapblock.specs.Layout.{opening};
ghost use Rattle.mapblock.specs.Block.{verdict};
ghost use Rattle.wire.specs.Ranges.{range_at, InReach};
ghost use Rattle.block_reader.specs.Sections.{scanned_of};
ghost use Rattle.mapblock.specs.Table.{free_in};
ghost use Rattle.block_reader.specs.Scan.{opening_is, told_opening, FrontTold, FrontIs, MiddleTold, MiddleIs, metadata_head, early_head, Sized, without_late_timers, with_late_timers_at, ReadUpTo};

use mapblock::fault::{Fault, Refusal, behind};
use mapblock::head::{Head, LIST_COUNTED, NO_LIGHTING, Sections, is_version};
use mapblock::lists::{
    LIST_HEAD_LENGTH, early_timers, late_timers, list_version_length, metadata_list, object_list,
};
use mapblock::names::{NAMES_HEAD_LENGTH, NamesHead, name_mapping, unmark};
use mapblock::nodes::{IDS, WIDTHS_LENGTH, first_unmapped, node_data, width};
use mapblock::rows::COUNT_LENGTH;
use wire::fields::number_at;
use wire::ranges::Range;

// ---- the front: head, the names of version 29, node data
// The places of step 1's fields. Before version 27 step 1 ends where the lighting would stand.
const FLAGS_AT: usize = 1;

const LIGHTING_AT: usize = 2;

// The bytes of step 1 from version 27 on.
const OPENING_LENGTH: usize = 4;

// Version 29's timestamp and names stand between step 1 and the two widths, and their rows behind step 1 and the list's head.
const BESIDE_NAMES_LENGTH: usize = OPENING_LENGTH + WIDTHS_LENGTH;

const NAME_ROWS_AT: usize = OPENING_LENGTH + NAMES_HEAD_LENGTH;

// The fields of step 1.
#[derive(Clone, Copy, Debug, PartialEq, Eq, Hash)]
pub struct OpeningFields {
    pub version: u8,
    pub flags: u8,
    pub lighting: u16,
}

// Reads step 1: version, flags, and from version 27 on the lighting.
fn opening(s: &[u8]) -> Result<(OpeningFields, usize), Refusal>
    ensures { told_opening result ≡ opening.read s.now }
{
    let version = number_at::<u8>(s, 0).ok_or(Refusal::ends(0))?;
    if !is_version(version) {
        return Err(Refusal {
            fault: Fault::Version,
            offset: 0,
        });
    }
    let flags = number_at::<u8>(s, FLAGS_AT).ok_or(Refusal::ends(FLAGS_AT))?;
    let unlit = OpeningFields {
        version,
        flags,
        lighting: NO_LIGHTING,
    };
    if version < 27 {
        return Ok((unlit, LIGHTING_AT));
    }
    let lighting = number_at::<u16>(s, LIGHTING_AT).ok_or(Refusal::ends(LIGHTING_AT))?;
    Ok((OpeningFields { lighting, ..unlit }, OPENING_LENGTH))
}

// What is read up to the end of the node data. Version 29's names stand in front, with their timestamp and number;
// `lists` is where the param lists start.
#[derive(Clone, Copy, Debug, PartialEq, Eq, Hash)]
pub struct FrontFields {
    pub version: u8,
    pub flags: u8,
    pub lighting: u16,
    pub timestamp: u32,
    pub count: u16,
    pub lists: usize,
    pub end: usize,
}

// Reads the front before version 29, where the node data stands at once behind step 1.
fn plain_front(s: &[u8], fields: OpeningFields, at: usize) -> Result<FrontFields, Refusal>
    requires { (fields.version < 29) × (opening.read s.now ≡ done (opening_is fields) at) }
    ensures { (t : List ℕ) → length t ≡ 65536 → FrontTold t t s.now result }
{
    let n = behind(at, node_data(fields.version, &s[at..]))?;
    Ok(FrontFields {
        version: fields.version,
        flags: fields.flags,
        lighting: fields.lighting,
        timestamp: 0,
        count: 0,
        lists: at + WIDTHS_LENGTH,
        end: at + n,
    })
}

// Reads the front in version 29, where timestamp and names stand before the node data. The names' ids stay marked, unless the front is refused.
fn named_front(
    s: &[u8],
    fields: OpeningFields,
    at: usize,
    ids: &mut [u8; IDS],
) -> Result<FrontFields, Refusal>
    requires { (29 ≤ fields.version) × (opening.read s.now ≡ done (opening_is fields) at) }
    ensures { FrontTold ids.old ids.new s.now result }
{
    let (NamesHead { timestamp, count }, n) = behind(at, name_mapping(&s[at..], ids))?;
    let start = at + n;
    match node_data(fields.version, &s[start..]) {
        Err(refusal) => {
            unmark(&s[at + NAMES_HEAD_LENGTH..], count, ids);
            Err(refusal.behind(start))
        }
        Ok(m) => Ok(FrontFields {
            version: fields.version,
            flags: fields.flags,
            lighting: fields.lighting,
            timestamp,
            count,
            lists: start + WIDTHS_LENGTH,
            end: start + m,
        }),
    }
}

// Reads the front, steps 1 to 4.
fn front(s: &[u8], ids: &mut [u8; IDS]) -> Result<FrontFields, Refusal>
    ensures { FrontTold ids.old ids.new s.now result }
{
    let (fields, n) = opening(s)?;
    if fields.version < 29 {
        plain_front(s, fields, n)
    } else {
        named_front(s, fields, n, ids)
    }
}

// ---- the rest: metadata, timers, static objects, the names before version 29
// The lengths of the lists up to the static objects, the form of the metadata, and the timer byte.
#[derive(Clone, Copy, Debug, PartialEq, Eq, Hash)]
pub struct MiddleFields {
    pub metadata: usize,
    pub early: usize,
    pub objects: usize,
    pub form: u8,
    pub timer: u8,
}

// Reads the lists up to the static objects, steps 5 and 6.
fn middle(version: u8, s: &[u8]) -> Result<MiddleFields, Refusal>
    ensures { MiddleTold version s.now result }
{
    let (form, metadata) = metadata_list(version, s)?;
    let (timer, early) = behind(metadata, early_timers(version, &s[metadata..]))?;
    let at = metadata + early;
    let objects = behind(at, object_list(version, &s[at..]))?;
    Ok(MiddleFields {
        metadata,
        early,
        objects,
        form,
        timer,
    })
}

// What a block's scan finds: the head, where the param lists start, and the sections.
#[derive(Clone, Copy, Debug, PartialEq, Eq, Hash)]
pub struct Scanned {
    pub head: Head,
    pub lists: usize,
    pub sections: Sections,
}

// Gives where the rows of a list stand, behind its head; `size` is the length of the list.
fn rows_of(at: usize, head: usize, size: usize) -> Range
    requires { (head ≤ size) × InReach (at + size) }
    ensures { result ≡ range_at (at + head) (size - head) }
{
    Range {
        start: at + head,
        length: size - head,
    }
}

// Gives the length of what stands before the rows of metadata: the list version, and the count where there is one.
pub fn metadata_head(version: u8, form: u8) -> usize
    ensures { result ≡ metadata_head version form }
{
    let version_length = list_version_length(version);
    if form == LIST_COUNTED {
        version_length + COUNT_LENGTH
    } else {
        version_length
    }
}

// Gives the length of what stands before version 24's timers: of all of it where there are none.
fn early_head(middle: MiddleFields) -> usize
    ensures { result ≡ early_head middle }
{
    if middle.timer == 1 {
        LIST_HEAD_LENGTH
    } else {
        middle.early
    }
}

// Puts together what is found before the late timers.
fn without_late_timers(
    front: FrontFields,
    middle: MiddleFields,
    timestamp: u32,
    names: Range,
) -> Scanned
    requires { Sized front middle }
    ensures { result ≡ without_late_timers front middle timestamp names }
{
    let early = front.end + middle.metadata;
    Scanned {
        head: Head {
            version: front.version,
            flags: front.flags,
            lighting: front.lighting,
            timestamp,
            timer: middle.timer,
            form: middle.form,
        },
        lists: front.lists,
        sections: Sections {
            names,
            metadata: rows_of(
                front.end,
                metadata_head(front.version, middle.form),
                middle.metadata,
            ),
            objects: rows_of(early + middle.early, LIST_HEAD_LENGTH, middle.objects),
            timers: rows_of(early, early_head(middle), middle.early),
        },
    }
}

// Adds the late timers to what was found; they are the n bytes from a place on.
fn with_late_timers(scanned: Scanned, at: usize, n: usize) -> Scanned
    requires { (25 ≤ scanned.head.version → 3 ≤ n) × InReach (at + n) }
    ensures { result ≡ with_late_timers_at scanned at n }
{
    if scanned.head.version < 25 {
        return scanned;
    }
    let timers = rows_of(at, LIST_HEAD_LENGTH, n);
    Scanned {
        sections: Sections {
            timers,
            ..scanned.sections
        },
        ..scanned
    }
}

// Judges the end: the late timers, that no bytes follow, and that every id is mapped.
fn ending(
    s: &[u8],
    scanned: Scanned,
    at: usize,
    ids: &[u8; IDS],
) -> Result<(Scanned, usize), Refusal>
    requires { (free : ℕ → Bool) × ReadUpTo free s.now scanned at ids.now }
    ensures { (free : ℕ → Bool) → ReadUpTo free s.now scanned at ids.now → told_reading result
        ≡ map_read scanned_of (verdict free s.now) }
{
    let version = scanned.head.version;
    let lists = scanned.lists;
    let n = behind(at, late_timers(version, &s[at..]))?;
    let end = at + n;
    if end < s.len() {
        return Err(Refusal {
            fault: Fault::BytesAfter,
            offset: end,
        });
    }
    if let Some(i) = first_unmapped(version, &s[lists..], ids) {
        return Err(Refusal {
            fault: Fault::IdUnmapped,
            offset: lists + width(version) * i,
        });
    }
    Ok((with_late_timers(scanned, at, n), end))
}

// Judges what follows the static objects before version 29: timestamp and names, then the end.
fn names_behind(
    s: &[u8],
    front: FrontFields,
    middle: MiddleFields,
    ids: &mut [u8; IDS],
) -> Result<(Scanned, usize), Refusal>
    requires { (front.version < 29) × ((t : List ℕ) × FrontIs t ids.old s.now front)
        × MiddleIs front.version (drop front.end s.now) middle }
    ensures told { (t : List ℕ) → FrontIs t ids.old s.now front → told_reading result
        ≡ map_read scanned_of (verdict (free_in t) s.now) }
    ensures ids { ids.new ≡ ids.old }
{
    let at = front.end + middle.metadata + middle.early + middle.objects;
    let (NamesHead { timestamp, count }, n) = behind(at, name_mapping(&s[at..], ids))?;
    let names = rows_of(at, NAMES_HEAD_LENGTH, n);
    let scanned = without_late_timers(front, middle, timestamp, names);
    let r = ending(s, scanned, at + n, ids);
    unmark(&s[at + NAMES_HEAD_LENGTH..], count, ids);
    r
}

// Judges what follows the node data.
fn behind_front(
    s: &[u8],
    front: FrontFields,
    ids: &mut [u8; IDS],
) -> Result<(Scanned, usize), Refusal>
    requires { (t : List ℕ) × FrontIs t ids.old s.now front }
    ensures told { (t : List ℕ) → FrontIs t ids.old s.now front → told_reading result
        ≡ map_read scanned_of (verdict (free_in t) s.now) }
    ensures ids { ids.new ≡ ids.old }
{
    let end = front.end;
    let lists = behind(end, middle(front.version, &s[end..]))?;
    if front.version < 29 {
        return names_behind(s, front, lists, ids);
    }
    let names = rows_of(
        OPENING_LENGTH,
        NAMES_HEAD_LENGTH,
        front.lists - BESIDE_NAMES_LENGTH,
    );
    let scanned = without_late_timers(front, lists, front.timestamp, names);
    ending(
        s,
        scanned,
        end + lists.metadata + lists.early + lists.objects,
        ids,
    )
}

// Judges a block. The table tells which ids are free, all of them where it is clear, and comes back as it was; so one table serves many blocks.
pub fn scan(s: &[u8], ids: &mut [u8; IDS]) -> Result<(Scanned, usize), Refusal>
    ensures told { told_reading result ≡ map_read scanned_of (verdict (free_in ids.old) s.now) }
    ensures ids { ids.new ≡ ids.old }
{
    let fields = front(s, ids)?;
    let r = behind_front(s, fields, ids);
    // Version 29's names are unmarked; before it there are none here.
    unmark(&s[NAME_ROWS_AT..], fields.count, ids);
    r
}
