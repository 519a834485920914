// The program sheetcount, over a reader and two writers that its caller gives: it counts the nodes of a sheet, name by name, the whole world and
// all time. What is read is judged, counted and put into words by the libraries below; no contract can say which bytes a file gives or takes, so
// that part is held by runs, of sheetcount_runs.
#![tactic(auto)]

mod program;
mod reading;

ghost use Rattle.std.specs.Prelude.{◌≡◌, ℕ, Err};
ghost use Rattle.wire.specs.Answer.{refusal};
ghost use Rattle.meter.specs.SheetTold.{told_sheet};
ghost use Rattle.sheetcount_lib.specs.Reading.{CountedAs};
ghost use Rattle.sheetcount_lib.specs.Printing.{Shows, ShowsRefusal};

use anowhetele::metering::sheet_answer;
use meter::answer::SheetError;
use program::MAX_TALLY_LENGTH;
use reading::{CountError, count_sheet};
use report::lines::tally_text;
use report::refusal::refusal_text;
use report::text::put_length;
use std::io::{Read, Write};

// ---- what is printed: inner functions of `run`, whose premise is an output that holds what the answer says
// Room for the text of any tally.
const MAX_TEXT_LENGTH: usize = 20480;

// Puts the number and the record of a refusal into the buffer, and tells how long the text is.
fn put_refusal(error: SheetError, text: &mut [u8; MAX_TEXT_LENGTH]) -> usize
    ensures { (n i o : ℕ) → told_sheet (Err error) ≡ refusal n i o → ShowsRefusal result text.new n i }
{
    let told = sheet_answer(Err(error));
    put_length(refusal_text(told.number, told.index, text))
}

// Puts what is printed of an answer into the buffer, and tells how long the text is.
fn put_answer(
    answer: Result<usize, SheetError>,
    out: &[u8],
    text: &mut [u8; MAX_TEXT_LENGTH],
) -> usize
    requires { CountedAs out.now answer }
    ensures { (c : CountedAs out.now answer) → Shows result text.new c.into.s }
{
    match answer {
        Ok(n) => put_length(tally_text(&out[..n], text)),
        Err(error) => put_refusal(error, text),
    }
}

// Writes what is printed to `output` at once. Where that fails, some of it may have been written.
fn print_answer(
    output: &mut impl Write,
    errors: &mut impl Write,
    answer: Result<usize, SheetError>,
    out: &[u8],
)
    requires { CountedAs out.now answer }
{
    let mut text = [0u8; MAX_TEXT_LENGTH];
    let n = put_answer(answer, out, &mut text);
    if output.write_all(&text[..n]).is_err() {
        let _ = errors.write_all(b"sheetcount: cannot write the result\n");
    }
}

// Reads a sheet from `input`, a record at a time, and writes its tally, or the number and the record of its refusal, to `output`. Where the
// input cannot be read, or the result not be written, one line on `errors` says so; if that line cannot be written either, nothing more is done.
pub fn run(input: &mut impl Read, output: &mut impl Write, errors: &mut impl Write) {
    let mut out = [0u8; MAX_TALLY_LENGTH];
    match count_sheet(input, &mut out) {
        Ok(n) => print_answer(output, errors, Ok(n), &out),
        Err(CountError::Sheet(error)) => print_answer(output, errors, Err(error), &out),
        Err(CountError::Read(_)) => {
            let _ = errors.write_all(b"sheetcount: cannot read the input\n");
        }
    }
}
