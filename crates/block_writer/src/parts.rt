// The parts that a block is made of.
use mapblock::head::Head;

// Head, lists and sections. A section is the bytes of its rows.
#[derive(Clone, Copy, Debug, PartialEq, Eq, Hash)]
pub(crate) struct Parts<'a> {
    pub head: Head,
    pub param0: &'a [u16],
    pub param1: &'a [u8],
    pub param2: &'a [u8],
    pub names: &'a [u8],
    pub metadata: &'a [u8],
    pub objects: &'a [u8],
    pub timers: &'a [u8],
}
