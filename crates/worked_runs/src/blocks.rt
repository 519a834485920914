// The blocks of the sums.
ghost use Rattle.std.specs.Prelude.{◌≤◌, length};

use block_writer::write::write;
use mapblock::head::{Head, LIST_COUNTED};
use mapblock::nodes::NODES;

// Room for each of them, and for a byte more.
pub(crate) const ROOM: usize = 16_500;

// A name row: id 0, the length, `air`.
pub(crate) const AIR: [u8; 7] = *b"\x00\x00\x00\x03air";

// Makes a head with the one lighting that every version takes.
pub(crate) fn head_with(version: u8, timer: u8, form: u8, timestamp: u32) -> Head {
    Head {
        version,
        flags: 0,
        lighting: 65535,
        timestamp,
        timer,
        form,
    }
}

// Makes such a head with the form that every version has.
pub(crate) fn head(version: u8, timer: u8, timestamp: u32) -> Head {
    head_with(version, timer, LIST_COUNTED, timestamp)
}

// Nodes that are all alike but for the first; what is not said of them is 0.
#[derive(Clone, Copy, Debug, PartialEq, Eq, Hash)]
pub(crate) struct Nodes {
    pub param0: u16,
    pub first_param0: u16,
    pub first_param2: u8,
}

pub(crate) const ALL_ZERO: Nodes = Nodes {
    param0: 0,
    first_param0: 0,
    first_param2: 0,
};

// Writes a block that has no rows but names, and tells its length; 0 where the writer refuses it.
pub(crate) fn put_block(head: Head, nodes: Nodes, names: &[u8], out: &mut [u8]) -> usize
    ensures { result ≤ length out.old }
{
    let mut param0 = [nodes.param0; NODES];
    let param1 = [0u8; NODES];
    let mut param2 = [0u8; NODES];
    param0[0] = nodes.first_param0;
    param2[0] = nodes.first_param2;
    write(head, &param0, &param1, &param2, names, b"", b"", b"", out).unwrap_or(0)
}

// Gives the first n bytes of a buffer; all of it where it has no more.
pub(crate) fn front(s: &[u8], n: usize) -> &[u8] {
    s.get(..n).unwrap_or(s)
}
