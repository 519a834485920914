// The names that a block uses, found by their counts.
ghost use Rattle.std.specs.Prelude.{◌≡◌, ◌≤◌, length};
ghost use Rattle.wire.specs.Store.{overwrite};
ghost use Rattle.census.specs.UsedNames.{used_of};

use mapblock::names::name_row;
use mapblock::nodes::{IDS, NODES};

// Stores the places of the rows whose id has a count, and says how many; it ends with the rows, or where there is no room for more.
pub(crate) fn used(s: &[u8], counts: &[u16; IDS], places: &mut [usize; NODES]) -> usize
    ensures bounded { result ≤ 4096 }
    ensures told { result ≡ length (used_of counts.now s.now) }
    ensures places { places.new
        ≡ overwrite 0 (used_of counts.now s.now) places.old }
{
    let mut rest = s;
    let mut at = 0;
    let mut n = 0;
    while n < NODES {
        let Ok((row, size)) = name_row(rest) else {
            break;
        };
        if counts[usize::from(row.id)] != 0 {
            places[n] = at;
            n += 1;
        }
        rest = &rest[size..];
        at += size;
    }
    n
}
