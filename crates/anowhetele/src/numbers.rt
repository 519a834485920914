// Document 01's numbers, and those that document 02 adds, as the functions answer them; bindings/numbers.txt has all with their words.
pub const DONE: u32 = 0;

pub const OUT_OF_RANGE: u32 = 9;

pub const BAD_PART: u32 = 10;

pub const NO_ROOM: u32 = 11;

pub const PARTS_MISFIT: u32 = 12;

pub const TALLY_MALFORMED: u32 = 13;

pub const TOO_MANY: u32 = 14;

pub const SHEET_MALFORMED: u32 = 15;

pub const NO_SUCH: u32 = 16;

pub const RATES_MALFORMED: u32 = 40;
