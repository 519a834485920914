// Inventories of metadata rows.
ghost use Rattle.std.specs.Prelude.{◌≡◌};
ghost use Rattle.mapblock.specs.Inventory.{inventory};
ghost use Rattle.mapblock.specs.Told.{told_reach, ended};

use crate::fault::Refusal;
use wire::marks::mark_at;

// The bytes of the end line `EndInventory`, with its newline.
const END_LINE_LENGTH: usize = 13;

// Its first byte, E. Most lines begin with another, and the rest of the mark is then not compared.
const FIRST_BYTE: u8 = 69;

// The byte that ends a line.
const NEWLINE: u8 = 10;

// Reads an inventory at the front of the bytes: it runs through the first line that is exactly the end line.
pub fn inventory(s: &[u8]) -> Result<usize, Refusal>
    ensures { told_reach result ≡ ended (inventory.read s.now) }
{
    let mut fresh = true;
    for at in 0..s.len() {
        if fresh && s[at] == FIRST_BYTE && mark_at(s, at, b"EndInventory\n") {
            return Ok(at + END_LINE_LENGTH);
        }
        fresh = s[at] == NEWLINE;
    }
    Err(Refusal::ends(0))
}
