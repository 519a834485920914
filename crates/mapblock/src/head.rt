// What a block's reader tells beside the lists: the head, and where things stand in the block. They cross to a host as they are.
ghost use Rattle.std.specs.Prelude.{◌≡◌};
ghost use Rattle.mapblock.specs.Layout.{is_version};

use wire::ranges::{NO_RANGE, Range};

// The lighting of a version that carries none.
pub const NO_LIGHTING: u16 = 65535;

// The forms of a metadata list: a count and so many rows, or a single 0 for a list of none, without a count.
pub const LIST_COUNTED: u8 = 0;

pub const LIST_ZERO: u8 = 1;

// What a block says of itself beside its lists.
#[repr(C)]
#[derive(Clone, Copy, Debug, PartialEq, Eq, Hash)]
pub struct Head {
    pub version: u8,
    pub flags: u8,
    // `NO_LIGHTING` under version 27.
    pub lighting: u16,
    pub timestamp: u32,
    // The timer byte: 0 except in version 24.
    pub timer: u8,
    // The form of the metadata list: `LIST_COUNTED` or, from version 23 on, `LIST_ZERO`.
    pub form: u8,
}

// The head of a block that is refused: all of it is 0.
pub const NO_HEAD: Head = Head {
    version: 0,
    flags: 0,
    lighting: 0,
    timestamp: 0,
    timer: 0,
    form: LIST_COUNTED,
};

// Where the rows of each list stand, without its count.
#[repr(C)]
#[derive(Clone, Copy, Debug, PartialEq, Eq, Hash)]
pub struct Sections {
    pub names: Range,
    pub metadata: Range,
    pub objects: Range,
    pub timers: Range,
}

// The sections of a block that is refused: nowhere.
pub const NO_SECTIONS: Sections = Sections {
    names: NO_RANGE,
    metadata: NO_RANGE,
    objects: NO_RANGE,
    timers: NO_RANGE,
};

// Tells whether a version is one of 22 to 29.
pub fn is_version(version: u8) -> bool
    ensures { result ≡ is_version version }
{
    (22..=29).contains(&version)
}
