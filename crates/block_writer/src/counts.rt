// The number of rows of each section.
ghost use Rattle.std.specs.Prelude.{◌≡◌};
ghost use Rattle.wire.specs.Told.{option_of};
ghost use Rattle.block_writer.specs.Sections.{counts_in};

use crate::frames::{SectionKind, row_count};
use crate::parts::Parts;

// How many rows each section has.
#[derive(Clone, Copy, Debug, PartialEq, Eq, Hash)]
pub struct RowCounts {
    pub names: u16,
    pub metadata: u16,
    pub objects: u16,
    pub timers: u16,
}

// Counts the rows of the four sections: the writer puts each count before its rows.
pub(crate) fn count_all(parts: &Parts) -> Option<RowCounts>
    ensures { option_of result
        ≡ counts_in parts.now.head.version parts.now.names.now parts.now.metadata.now parts.now.objects.now
        parts.now.timers.now }
{
    let version = parts.head.version;
    Some(RowCounts {
        names: row_count(SectionKind::Names, version, parts.names)?,
        metadata: row_count(SectionKind::Metadata, version, parts.metadata)?,
        objects: row_count(SectionKind::Objects, version, parts.objects)?,
        timers: row_count(SectionKind::Timers, version, parts.timers)?,
    })
}
