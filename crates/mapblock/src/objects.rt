// Rows of static objects.
ghost use Rattle.std.specs.Prelude.{◌≡◌};
ghost use Rattle.mapblock.specs.Told.{told_reading};
ghost use Rattle.wire.specs.Read.{map_read};
ghost use Rattle.mapblock.specs.Layout.{object_row};
ghost use Rattle.mapblock.specs.Rows.{object_fields};

use crate::fault::{Refusal, whole_run_at};
use wire::fields::number_at;
use wire::ranges::Range;

// A row's numbers, and where its content stands in the bytes it was read from.
#[derive(Clone, Copy, Debug, PartialEq, Eq, Hash)]
pub struct ObjectFields {
    pub kind: u8,
    pub x: i32,
    pub y: i32,
    pub z: i32,
    pub content: Range,
}

// In a row three coordinates stand behind the type, and behind them the content's length, a u16, and the content.
const X_AT: usize = 1;

const Y_AT: usize = 5;

const Z_AT: usize = 9;

const CONTENT_LENGTH_AT: usize = 13;

const CONTENT_AT: usize = 15;

// Reads the row at the front of the bytes.
pub fn object_row(s: &[u8]) -> Result<(ObjectFields, usize), Refusal>
    ensures { told_reading result ≡ map_read object_fields (object_row.read s.now) }
{
    let kind = number_at::<u8>(s, 0).ok_or(Refusal::ends(0))?;
    let x = number_at::<i32>(s, X_AT).ok_or(Refusal::ends(X_AT))?;
    let y = number_at::<i32>(s, Y_AT).ok_or(Refusal::ends(Y_AT))?;
    let z = number_at::<i32>(s, Z_AT).ok_or(Refusal::ends(Z_AT))?;
    let length = whole_run_at::<u16>(s, CONTENT_LENGTH_AT)?;
    let content = Range {
        start: CONTENT_AT,
        length,
    };
    let fields = ObjectFields {
        kind,
        x,
        y,
        z,
        content,
    };
    Ok((fields, CONTENT_AT + length))
}
