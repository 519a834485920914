// The text of a refusal.
ghost use Rattle.std.specs.Prelude.{length};
ghost use Rattle.wire.specs.Answer.{Answered};
ghost use Rattle.report.specs.Text.{refusal_text_of};
ghost use Rattle.report.specs.Told.{told_text};

use crate::decimal::{decimal_length, put_decimal};
use crate::text::TextError;
use wire::store::put_bytes;

// The lengths of `refused ` and of ` record `.
const REFUSED: usize = 8;

const RECORD: usize = 8;

// Puts the text of a refusal: `refused N record R`, and a newline.
pub fn refusal_text(number: u32, index: u32, out: &mut [u8]) -> Result<usize, TextError>
    ensures { Answered (told_text result) out.old out.new
        (refusal_text_of (length out.old) number index) }
{
    let number = u64::from(number);
    let index = u64::from(index);
    let record = REFUSED + decimal_length(number);
    let end = record + RECORD + decimal_length(index);
    if out.len() <= end {
        return Err(TextError::NoRoom);
    }
    put_bytes(out, 0, b"refused ");
    put_decimal(out, REFUSED, number);
    put_bytes(out, record, b" record ");
    put_decimal(out, record + RECORD, index);
    put_bytes(out, end, b"\n");
    Ok(end + 1)
}
