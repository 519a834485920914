// The ordered look-up: a name among rows that rise by name.
ghost use Rattle.std.specs.Prelude.{◌≡◌};
ghost use Rattle.tally.specs.LookedUp.{lookup_of};

use crate::rows::{NAME_AT, ROW_OVERHEAD, front_row};
use std::cmp::Ordering;
use wire::order::compare;

// Where a name stands among rows: its row's place and count, or the place where its row would be.
#[derive(Clone, Copy, Debug, PartialEq, Eq, Hash)]
pub enum Lookup {
    Present { at: usize, count: u64 },
    Absent(usize),
}

// Looks for a name among the rows at the front of some bytes, as far as they are rows: its row and its count, or the place where its row would be.
pub fn look_up(s: &[u8], name: &[u8]) -> Lookup
    ensures { result ≡ lookup_of s.now name.now }
{
    let mut rest = s;
    let mut at = 0;
    while let Some((n, count)) = front_row(rest) {
        match compare(&rest[NAME_AT..n + NAME_AT], name) {
            Ordering::Less => {
                rest = &rest[n + ROW_OVERHEAD..];
                at += n + ROW_OVERHEAD;
            }
            Ordering::Equal => return Lookup::Present { at, count },
            Ordering::Greater => return Lookup::Absent(at),
        }
    }
    Lookup::Absent(at)
}
