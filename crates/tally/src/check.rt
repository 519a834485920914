// Whether bytes are a tally.
ghost use Rattle.std.specs.Prelude.{◌≡◌};
ghost use Rattle.wire.specs.Format.{items};
ghost use Rattle.wire.specs.Answer.{bytes_of};
ghost use Rattle.wire.specs.Formats.{head_length};
ghost use Rattle.wire.specs.Places.{place_in, start_told};
ghost use Rattle.tally.specs.Tally.{row, one};
ghost use Rattle.tally.specs.Operations.{check_of, row_bytes_of};
ghost use Rattle.tally.specs.Told.{told_check};
ghost use Rattle.tally.specs.Walks.{may_follow, takes};

use crate::head::stated_rows;
use crate::rows::{NAME_AT, ROW_OVERHEAD, front_row};
use wire::heads::HEAD_LENGTH;
use wire::order::compare;

// Tells whether a name may follow the last one: it comes later, or none was before it.
fn may_follow(last: Option<&[u8]>, name: &[u8]) -> bool
    ensures { result ≡ may_follow last.entry name.now }
{
    last.is_none_or(|last| compare(last, name).is_lt())
}

// Tells whether bytes are so many rows in order, and nothing else.
fn are_rows(s: &[u8], count: u32) -> bool
    ensures { result ≡ takes (items (row one) count) s.now }
{
    let mut rest = s;
    let mut last = None;
    for _ in 0..count {
        let Some((n, _)) = front_row(rest) else {
            return false;
        };
        let name = &rest[NAME_AT..n + NAME_AT];
        if !may_follow(last, name) {
            return false;
        }
        last = Some(name);
        rest = &rest[n + ROW_OVERHEAD..];
    }
    rest.is_empty()
}

// Tells whether bytes are a tally, and of how many rows: the whole of it is judged, so that whoever walks its rows afterwards need not.
pub fn check(t: &[u8]) -> Option<u32>
    ensures { told_check result ≡ check_of one t.now }
{
    let count = stated_rows(t)?;
    are_rows(&t[HEAD_LENGTH..], count).then_some(count)
}

// Gives the rows of a tally, to be taken from the front; an empty slice where it is none.
pub fn rows_of(t: &[u8]) -> &[u8]
    ensures told { result.now ≡ bytes_of (λ s. s) (row_bytes_of one t.now) }
    ensures place { result.ref_ptr
        ≡ place_in t.entry (start_told (λ _. head_length) (row_bytes_of one t.now)) }
{
    match check(t) {
        Some(_) => &t[HEAD_LENGTH..],
        None => &t[..0],
    }
}
