// Counted lists of rows: one loop for metadata, static objects and timers. Names have a table of their own.
ghost use Rattle.std.specs.Prelude.{◌≡◌, []};
ghost use Rattle.wire.specs.Format.{items};
ghost use Rattle.wire.specs.Formats.{listed};
ghost use Rattle.mapblock.specs.ListKinds.{row_after, RowMarked};
ghost use Rattle.mapblock.specs.Told.{told_reach, ended};

use crate::fault::{Refusal, behind};
use crate::metadata::metadata_row;
use crate::nodes::NODES;
use crate::objects::object_row;
use crate::positions::new_position;
use crate::timers::{TIMER_ROW_LENGTH, timer_row};
use wire::fields::number_at;

// The lists that are read by one loop.
#[derive(Clone, Copy, Debug, PartialEq, Eq, Hash)]
pub enum ListKind {
    Metadata,
    Objects,
    Timers,
}

// Reads the front row, judged alone, and tells its length.
fn row_alone(kind: ListKind, version: u8, s: &[u8]) -> Result<usize, Refusal>
    ensures { told_reach result ≡ ended ((row_after kind version []).read s.now) }
{
    match kind {
        ListKind::Metadata => Ok(metadata_row(version, s)?.1),
        ListKind::Objects => Ok(object_row(s)?.1),
        ListKind::Timers => {
            timer_row(s)?;
            Ok(TIMER_ROW_LENGTH)
        }
    }
}

// Reads the front row after rows whose positions are marked, and marks its own position too.
fn row_after(
    kind: ListKind,
    version: u8,
    s: &[u8],
    marks: &mut [u8; NODES],
) -> Result<usize, Refusal>
    ensures { RowMarked kind version s.now marks.old marks.new result }
{
    match kind {
        ListKind::Objects => row_alone(ListKind::Objects, version, s),
        ListKind::Metadata | ListKind::Timers => {
            new_position(s, marks)?;
            row_alone(kind, version, s)
        }
    }
}

// Reads so many rows and tells where they end.
pub fn rows(kind: ListKind, version: u8, s: &[u8], count: u16) -> Result<usize, Refusal>
    ensures { told_reach result ≡ ended ((items (row_after kind version) count).read s.now) }
{
    let mut marks = [0u8; NODES];
    let mut at: usize = 0;
    for _ in 0..count {
        let n = behind(at, row_after(kind, version, &s[at..], &mut marks))?;
        at += n;
    }
    Ok(at)
}

// The bytes of a list's count.
pub const COUNT_LENGTH: usize = 2;

// Reads a count and so many rows.
pub fn listed(kind: ListKind, version: u8, s: &[u8]) -> Result<usize, Refusal>
    ensures { told_reach result ≡ ended ((listed 2 (row_after kind version)).read s.now) }
{
    let count = number_at::<u16>(s, 0).ok_or(Refusal::ends(0))?;
    let n = behind(COUNT_LENGTH, rows(kind, version, &s[COUNT_LENGTH..], count))?;
    Ok(COUNT_LENGTH + n)
}
