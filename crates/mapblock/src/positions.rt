// Positions of nodes in rows of metadata and of timers.
ghost use Rattle.std.specs.Prelude.{◌≡◌};
ghost use Rattle.mapblock.specs.Layout.{position};
ghost use Rattle.mapblock.specs.Told.{told_position, PositionMarked};

use crate::fault::Fault;
use crate::nodes::NODES;
use wire::fields::number_at;

// The bytes of a position.
pub const POSITION_LENGTH: usize = 2;

// The position of a block's last node.
const LAST_POSITION: u16 = 4095;

// Reads the position at the front of a row.
pub fn position(s: &[u8]) -> Result<u16, Fault>
    ensures { told_position result ≡ position.read s.now }
{
    let p = number_at::<u16>(s, 0).ok_or(Fault::Ends)?;
    if LAST_POSITION < p {
        return Err(Fault::PositionAbove);
    }
    Ok(p)
}

// Reads the position at the front of a row, after rows whose positions are marked, and marks it too.
pub fn new_position(s: &[u8], marks: &mut [u8; NODES]) -> Result<u16, Fault>
    ensures { PositionMarked s.now marks.old marks.new result }
{
    let p = position(s)?;
    if marks[usize::from(p)] != 0 {
        return Err(Fault::PositionTwice);
    }
    marks[usize::from(p)] = 1;
    Ok(p)
}
