// The heads of tallies and sheets: a mark, the version and a number.
ghost use Rattle.std.specs.Prelude.{◌≡◌};
ghost use Rattle.wire.specs.Read.{to_option};
ghost use Rattle.wire.specs.Formats.{head};
ghost use Rattle.wire.specs.Store.{stored};
ghost use Rattle.wire.specs.Told.{short, told_head};

use crate::fields::number_at;
use crate::marks::mark_at;
use crate::store::{put_bytes, put_number};

pub const VERSION: u16 = 1;

// Where the fields of a head stand, and where it ends.
pub const VERSION_AT: usize = 3;

pub const COUNT_AT: usize = 5;

pub const HEAD_LENGTH: usize = 9;

// Reads the count that the head with this mark states; none where there is no such head.
pub fn read_head(s: &[u8], mark: &[u8; 3]) -> Option<u32>
    ensures { told_head result ≡ to_option ((head {ends = short} mark.now).read s.now) }
{
    if !mark_at(s, 0, mark) {
        return None;
    }
    let version: u16 = number_at(s, VERSION_AT)?;
    if version != VERSION {
        return None;
    }
    number_at(s, COUNT_AT)
}

// Puts the head at the front, where it fits; where it does not, nothing changes.
pub fn put_head(out: &mut [u8], mark: &[u8; 3], number: u32)
    ensures { out.new
        ≡ stored 0 ((head {ends = short} mark.now).encode number) out.old }
{
    if out.len() < HEAD_LENGTH {
        return;
    }
    put_bytes(out, 0, mark);
    put_number(out, VERSION_AT, VERSION);
    put_number(out, COUNT_AT, number);
}
