// Rows of a section by their framing alone: how long they are, and how many. Their values are the reader's to judge.
ghost use Rattle.std.specs.Prelude.{◌≡◌, length};
ghost use Rattle.wire.specs.Told.{option_of};
ghost use Rattle.std.proofs.Math.Option.{map};
ghost use Rattle.mapblock.specs.Told.{told_reading};
ghost use Rattle.block_writer.specs.Frames.{timer_frame, section_rows};
ghost use Rattle.block_writer.specs.Sections.{frame_of, length_read};

use mapblock::fault::Refusal;
use mapblock::metadata::metadata_frame;
use mapblock::names::name_row;
use mapblock::objects::object_row;
use mapblock::timers::TIMER_ROW_LENGTH;

// The four sections.
#[derive(Clone, Copy, Debug, PartialEq, Eq, Hash)]
pub enum SectionKind {
    Names,
    Metadata,
    Objects,
    Timers,
}

// Gives the length of a row that was read.
fn length_of<T: Copy>(read: Result<(T, usize), Refusal>) -> Option<usize>
    ensures { option_of result ≡ length_read (told_reading read) }
{
    read.ok().map(|(_, n)| n)
}

// Finds the length of a timer's row, which is the same for all.
fn timer_frame(s: &[u8]) -> Option<usize>
    ensures { option_of result ≡ length_read (timer_frame.read s.now) }
{
    (TIMER_ROW_LENGTH <= s.len()).then_some(TIMER_ROW_LENGTH)
}

// Finds the length of a section's front row, so that the rows can be counted.
fn front_row(section: SectionKind, version: u8, s: &[u8]) -> Option<usize>
    ensures { option_of result ≡ length_read ((frame_of section version).read s.now) }
{
    match section {
        SectionKind::Names => length_of(name_row(s)),
        SectionKind::Metadata => length_of(metadata_frame(version, s)),
        SectionKind::Objects => length_of(object_row(s)),
        SectionKind::Timers => timer_frame(s),
    }
}

// Counts the rows of a section to its end. There is no count where the rows are not whole, or more than a u16 counts.
pub(crate) fn row_count(section: SectionKind, version: u8, s: &[u8]) -> Option<u16>
    ensures { option_of result ≡ map length (section_rows (frame_of section version) s.now) }
{
    let mut rest = s;
    let mut count: u16 = 0;
    while !rest.is_empty() {
        let n = front_row(section, version, rest)?;
        count = count.checked_add(1)?;
        rest = &rest[n..];
    }
    Some(count)
}
