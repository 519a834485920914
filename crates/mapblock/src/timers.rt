// Rows of node timers.
ghost use Rattle.std.specs.Prelude.{◌≡◌, []};
ghost use Rattle.wire.specs.Read.{map_read};
ghost use Rattle.mapblock.specs.Layout.{timer_row};
ghost use Rattle.mapblock.specs.Rows.{timer_fields};
ghost use Rattle.mapblock.specs.Told.{told_timer};

use crate::fault::Refusal;
use crate::positions::{POSITION_LENGTH, position};
use wire::fields::number_at;

// A row's numbers.
#[derive(Clone, Copy, Debug, PartialEq, Eq, Hash)]
pub struct TimerFields {
    pub position: u16,
    pub timeout: i32,
    pub elapsed: i32,
}

// How many bytes a row has.
pub const TIMER_ROW_LENGTH: usize = 10;

// From version 25 on a list of timers begins with that number.
pub const TIMER_ROW_LENGTH_BYTE: u8 = TIMER_ROW_LENGTH as u8;

// In a row the timeout stands behind the position, and the elapsed time behind the timeout.
const TIMEOUT_AT: usize = POSITION_LENGTH;

const ELAPSED_AT: usize = 6;

// Reads the row at the front of the bytes, judged alone.
pub fn timer_row(s: &[u8]) -> Result<TimerFields, Refusal>
    ensures { told_timer result ≡ map_read timer_fields ((timer_row []).read s.now) }
{
    let position = position(s)?;
    let timeout = number_at::<i32>(s, TIMEOUT_AT).ok_or(Refusal::ends(TIMEOUT_AT))?;
    let elapsed = number_at::<i32>(s, ELAPSED_AT).ok_or(Refusal::ends(ELAPSED_AT))?;
    Ok(TimerFields {
        position,
        timeout,
        elapsed,
    })
}
