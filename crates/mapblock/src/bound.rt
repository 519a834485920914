// A bound on the content ids of a block whose ids have two bytes: the greatest first byte and the greatest second one.
ghost use Rattle.std.specs.Prelude.{◌≡◌, ◌+◌, ◌≤◌, ◌<◌, length};
ghost use Rattle.mapblock.specs.Bounds.{NoneAbove, Raised, Reached, IdsWithin};

use crate::nodes::NODES;

// So many bytes are compared side by side: a compiler turns a row of them into a few wide instructions.
const COLUMNS: usize = 128;

// Raises each column to the byte that stands in it, in the row of bytes at a place.
fn raise(columns: &mut [u8; COLUMNS], s: &[u8], at: usize)
    requires { at + 128 ≤ length s.now }
    ensures { Raised s.now at 128 columns.old columns.new }
{
    for j in 0..COLUMNS {
        columns[j] = columns[j].max(s[at + j]);
    }
}

// Raises each column to the greatest byte that stands in it, over 4,096 pairs of bytes.
fn raise_all(columns: &mut [u8; COLUMNS], s: &[u8])
    requires { 8192 ≤ length s.now }
    ensures { Reached s.now 8192 columns.new }
{
    for row in 0..2 * NODES / COLUMNS {
        raise(columns, s, row * COLUMNS);
    }
}

// Finds the greatest byte of every second column, from the first one or from the second on.
fn greatest_of(columns: &[u8; COLUMNS], first: usize) -> u8
    requires { first < 2 }
    ensures { NoneAbove 64 columns.now first result }
{
    let mut most: u8 = 0;
    for i in 0..COLUMNS / 2 {
        most = most.max(columns[2 * i + first]);
    }
    most
}

// Gives a number that no id is above, where the bytes hold 4,096 ids.
pub fn id_bound(s: &[u8]) -> usize
    ensures bounded { result < 65536 }
    ensures told { 8192 ≤ length s.now → IdsWithin s.now result }
{
    let mut columns = [0u8; COLUMNS];
    if s.len() < 2 * NODES {
        return 0;
    }
    raise_all(&mut columns, s);
    usize::from(greatest_of(&columns, 0)) * 256 + usize::from(greatest_of(&columns, 1))
}
