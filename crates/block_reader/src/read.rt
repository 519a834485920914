// The reader, and the sections of a block.
ghost use Rattle.std.specs.Prelude.{◌≡◌, ◌+◌, ◌*◌, ◌≤◌, length, drop};
ghost use Rattle.mapblock.specs.Told.{told_reading};
ghost use Rattle.wire.specs.Read.{map_read};
ghost use Rattle.mapblock.specs.Layout.{all, width};
ghost use Rattle.mapblock.specs.Block.{verdict};
ghost use Rattle.mapblock.specs.Params.{entries};
ghost use Rattle.block_reader.specs.Sections.{scanned_of};
ghost use Rattle.wire.specs.Ranges.{IsSlice};
ghost use Rattle.block_reader.specs.Questions.{are_whole, lists, ReadInto, sections_of, section_ranges_of, told_read, told_sections};

use crate::scan::{Scanned, scan};
use mapblock::fault::Refusal;
use mapblock::head::{Head, NO_SECTIONS, Sections};
use mapblock::nodes::{IDS, NODES, width};
use wire::ranges::slice_of;
use wire::store::put_bytes;

// Judges a block by itself: all ids are free.
pub(crate) fn judge(block: &[u8]) -> Result<(Scanned, usize), Refusal>
    ensures { told_reading result ≡ map_read scanned_of (verdict all block.now) }
{
    let mut ids = [0u8; IDS];
    scan(block, &mut ids)
}

// Why a block is not read into the lent lists.
#[derive(Clone, Copy, Debug, PartialEq, Eq, Hash)]
pub enum ReadError {
    // A lent list is not of 4,096.
    Misfit,
    Refused(Refusal),
}

impl From<Refusal> for ReadError {
    ghost use Rattle.std.specs.Prelude.{◌≡◌};
    ghost use Rattle.block_reader.specs.declared.read.ReadError.TheVariants.{Refused};

    ghost from_gives = { λ w e. e ≡ Refused w };

    fn from(refusal: Refusal) -> ReadError {
        ReadError::Refused(refusal)
    }
}

// Tells whether each of three lists has an entry for every node.
pub fn are_whole(a: usize, b: usize, c: usize) -> bool
    ensures { result ≡ are_whole a b c }
{
    a == NODES && b == NODES && c == NODES
}

// Puts the entries of two bytes at the front into a lent list.
fn fill16(s: &[u8], out: &mut [u16])
    requires { 2 * length out.old ≤ length s.now }
    ensures { out.new ≡ entries 2 (length out.old) s.now }
{
    for (i, entry) in out.iter_mut().enumerate() {
        *entry = u16::from_be_bytes([s[2 * i], s[2 * i + 1]]);
    }
}

// Puts the entries of one byte at the front into a lent list.
fn fill8(s: &[u8], out: &mut [u16])
    requires { length out.old ≤ length s.now }
    ensures { out.new ≡ entries 1 (length out.old) s.now }
{
    for (i, entry) in out.iter_mut().enumerate() {
        *entry = u16::from(s[i]);
    }
}

// Puts the entries of the three lists into three lent ones.
fn fill(version: u8, s: &[u8], param0: &mut [u16], param1: &mut [u8], param2: &mut [u8])
    requires version_in_bounds { 4096 * width version + 8192 ≤ length s.now }
    requires param0_len { (length param0.old ≡ 4096) × (length param1.old ≡ 4096) × (length param2.old ≡ 4096) }
    ensures param0 { param0.new ≡ entries (width version) 4096 s.now }
    ensures param1 { param1.new ≡ entries 1 4096 (drop (4096 * width version) s.now) }
    ensures param2 { param2.new
        ≡ entries 1 4096 (drop (4096 * width version + 4096) s.now) }
{
    if version < 24 {
        fill8(s, param0);
    } else {
        fill16(s, param0);
    }
    let at = NODES * width(version);
    put_bytes(param1, 0, &s[at..at + NODES]);
    put_bytes(param2, 0, &s[at + NODES..at + 2 * NODES]);
}

// Fills the three lent lists of a block that is taken, and tells its head and where its sections are. A refusal leaves the lists as they were.
pub fn read(
    block: &[u8],
    param0: &mut [u16],
    param1: &mut [u8],
    param2: &mut [u8],
) -> Result<(Head, Sections), ReadError>
    ensures { ReadInto block.now (told_read result)
        (lists param0.old param1.old param2.old)
        (lists param0.new param1.new param2.new) }
{
    if !are_whole(param0.len(), param1.len(), param2.len()) {
        return Err(ReadError::Misfit);
    }
    let (scanned, _) = judge(block)?;
    fill(
        scanned.head.version,
        &block[scanned.lists..],
        param0,
        param1,
        param2,
    );
    Ok((scanned.head, scanned.sections))
}

// Tells the head of a block, and where its sections are.
pub fn sections(block: &[u8]) -> Result<(Head, Sections), Refusal>
    ensures { told_sections result ≡ sections_of block.now }
{
    let (scanned, _) = judge(block)?;
    Ok((scanned.head, scanned.sections))
}

// Tells where the sections are: nowhere in a block that is refused.
fn section_ranges(block: &[u8]) -> Sections
    ensures { result ≡ section_ranges_of (sections_of block.now) }
{
    sections(block).map_or(NO_SECTIONS, |(_, ranges)| ranges)
}

// Gives the rows of names as a slice of the block, empty when it is refused.
pub fn names_section(block: &[u8]) -> &[u8]
    ensures { IsSlice block.entry (section_ranges_of (sections_of block.now)).names result }
{
    slice_of(block, section_ranges(block).names)
}

// Gives the rows of metadata in the same way.
pub fn metadata_section(block: &[u8]) -> &[u8]
    ensures { IsSlice block.entry (section_ranges_of (sections_of block.now)).metadata result }
{
    slice_of(block, section_ranges(block).metadata)
}

// Gives the rows of static objects in the same way.
pub fn objects_section(block: &[u8]) -> &[u8]
    ensures { IsSlice block.entry (section_ranges_of (sections_of block.now)).objects result }
{
    slice_of(block, section_ranges(block).objects)
}

// Gives the rows of timers in the same way.
pub fn timers_section(block: &[u8]) -> &[u8]
    ensures { IsSlice block.entry (section_ranges_of (sections_of block.now)).timers result }
{
    slice_of(block, section_ranges(block).timers)
}
