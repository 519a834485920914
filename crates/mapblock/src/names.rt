// Rows of names, and the timestamp that stands before them.
ghost use Rattle.std.specs.Prelude.{◌≡◌, List, [], Bool, ℕ, length};
ghost use Rattle.wire.specs.Read.{map_read};
ghost use Rattle.wire.specs.Format.{items};
ghost use Rattle.mapblock.specs.Data.{NameRow};
ghost use Rattle.mapblock.specs.Layout.{all, name_row, unmapped, name_mapping};
ghost use Rattle.mapblock.specs.Table.{free_in, Tabled, unmarked, front_rows, marked_by, NameMappingMarked};
ghost use Rattle.mapblock.specs.Rows.{name_fields};
ghost use Rattle.mapblock.specs.Told.{told_reach, ended, shown_mapping, told_reading};

use crate::fault::{Fault, Refusal, behind, whole_run_at};
use crate::nodes::IDS;
use wire::fields::number_at;
use wire::ranges::Range;

// A row's id, and where its name stands in the bytes it was read from.
#[derive(Clone, Copy, Debug, PartialEq, Eq, Hash)]
pub struct NameFields {
    pub id: u16,
    pub name: Range,
}

// In a row the name's length, a u16, stands behind the id, and the name behind both.
const NAME_LENGTH_AT: usize = 2;

const NAME_AT: usize = 4;

// Reads the row at the front of the bytes, judged alone.
pub fn name_row(s: &[u8]) -> Result<(NameFields, usize), Refusal>
    ensures { told_reading result ≡ map_read name_fields ((name_row all []).read s.now) }
{
    let id = number_at::<u16>(s, 0).ok_or(Refusal::ends(0))?;
    let length = whole_run_at::<u16>(s, NAME_LENGTH_AT)?;
    let name = Range {
        start: NAME_AT,
        length,
    };
    Ok((NameFields { id, name }, NAME_AT + length))
}

// Reads the row at the front of the bytes, after rows whose ids are marked.
fn new_name_row(s: &[u8], ids: &[u8; IDS]) -> Result<(NameFields, usize), Refusal>
    ensures { (free : ℕ → Bool) (seen : List NameRow) → Tabled 65536 (unmapped free seen) ids.now
        → told_reading result ≡ map_read name_fields ((name_row free seen).read s.now) }
{
    let id = number_at::<u16>(s, 0).ok_or(Refusal::ends(0))?;
    if ids[usize::from(id)] != 0 {
        return Err(Refusal::from(Fault::IdTwice));
    }
    name_row(s)
}

// Takes the marks of so many rows off the table.
pub fn unmark(s: &[u8], count: u16, ids: &mut [u8; IDS])
    ensures { ids.new ≡ unmarked ids.old (front_rows count s.now) }
{
    let mut rest = s;
    for _ in 0..count {
        let Ok((row, n)) = name_row(rest) else {
            return;
        };
        ids[usize::from(row.id)] = 0;
        rest = &rest[n..];
    }
}

// Reads so many rows and marks their ids; on a refusal the table is as it was.
// That the table has the length that its type says is for callers' proofs.
pub fn name_rows(s: &[u8], count: u16, ids: &mut [u8; IDS]) -> Result<usize, Refusal>
    ensures told { told_reach result
        ≡ ended ((items (name_row (free_in ids.old)) count).read s.now) }
    ensures ids { ids.new
        ≡ marked_by ids.old ((items (name_row (free_in ids.old)) count).read s.now) }
    ensures sized { length ids.old ≡ 65536 }
{
    let mut at: usize = 0;
    for read in 0..count {
        match new_name_row(&s[at..], ids) {
            Err(refusal) => {
                unmark(s, read, ids);
                return Err(refusal.behind(at));
            }
            Ok((row, n)) => {
                ids[usize::from(row.id)] = 1;
                at += n;
            }
        }
    }
    Ok(at)
}

// The bytes before the rows: timestamp, list version and count, and where the last two stand.
pub const NAMES_HEAD_LENGTH: usize = 7;

const LIST_VERSION_AT: usize = 4;

const COUNT_AT: usize = 5;

// The timestamp, and the number of rows that follow it.
#[derive(Clone, Copy, Debug, PartialEq, Eq, Hash)]
pub struct NamesHead {
    pub timestamp: u32,
    pub count: u16,
}

// Reads timestamp and names and marks the ids; on a refusal the table is as it was.
pub fn name_mapping(s: &[u8], ids: &mut [u8; IDS]) -> Result<(NamesHead, usize), Refusal>
    ensures told { told_reading result
        ≡ map_read shown_mapping ((name_mapping (free_in ids.old)).read s.now) }
    ensures marked { NameMappingMarked ids.old ids.new
        ((name_mapping (free_in ids.old)).read s.now) }
{
    let timestamp = number_at::<u32>(s, 0).ok_or(Refusal::ends(0))?;
    let zero = number_at::<u8>(s, LIST_VERSION_AT).ok_or(Refusal::ends(LIST_VERSION_AT))?;
    if zero != 0 {
        return Err(Refusal {
            fault: Fault::MappingVersion,
            offset: LIST_VERSION_AT,
        });
    }
    let count = number_at::<u16>(s, COUNT_AT).ok_or(Refusal::ends(COUNT_AT))?;
    let n = behind(
        NAMES_HEAD_LENGTH,
        name_rows(&s[NAMES_HEAD_LENGTH..], count, ids),
    )?;
    Ok((NamesHead { timestamp, count }, NAMES_HEAD_LENGTH + n))
}
