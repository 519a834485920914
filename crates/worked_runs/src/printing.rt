// What is printed. A line says what was asked and what came out, and ends in a verdict.
use crate::blocks::front;
use anowhetele::answer::AnowAnswer;
use report::lines::tally_text;
use report::refusal::refusal_text;
use std::{fmt, io};

// An output that goes on behind a write that failed: what could not be written is left out, and all that comes later is tried.
#[derive(Drop)]
pub(crate) struct Persistent<'a, P>(pub &'a P);

impl<P: Print> Print for Persistent<'_, P> {
    fn print<D: fmt::Display + Drop>(&self, value: D) -> io::Result<()> {
        let _ = self.0.print(value);
        Ok(())
    }

    fn println<D: fmt::Display + Drop>(&self, value: D) -> io::Result<()> {
        let _ = self.0.println(value);
        Ok(())
    }

    fn write_all(&self, bytes: &[u8]) -> io::Result<()> {
        let _ = self.0.write_all(bytes);
        Ok(())
    }
}

// Tells in a word whether a result is right.
pub(crate) fn verdict(is_right: bool) -> &'static str {
    if is_right { "ok" } else { "WRONG" }
}

// Bytes in hexadecimal digits, each behind a space.
#[derive(Clone, Copy, Debug, PartialEq, Eq, Hash)]
pub(crate) struct Hex<'a>(pub &'a [u8]);

impl fmt::Display for Hex<'_> {
    fn fmt<W: fmt::Write>(&self, f: &mut fmt::Formatter<W>) -> fmt::Result {
        for b in self.0 {
            write!(f, " {b:02x}")?;
        }
        Ok(())
    }
}

// Text whose lines are to stand in one: a semicolon and a space stand for the end of each.
#[derive(Clone, Copy, Debug, PartialEq, Eq, Hash)]
pub(crate) struct OneLine<'a>(pub &'a [u8]);

impl fmt::Display for OneLine<'_> {
    fn fmt<W: fmt::Write>(&self, f: &mut fmt::Formatter<W>) -> fmt::Result {
        for &b in self.0 {
            if b == b'\n' {
                f.write_str("; ")?;
            } else {
                f.write_char(char::from(b))?;
            }
        }
        Ok(())
    }
}

// The number that a call answers, and the place of a refusal.
#[derive(Clone, Copy, Debug, PartialEq, Eq, Hash)]
pub(crate) struct Answered(pub AnowAnswer);

impl fmt::Display for Answered {
    fn fmt<W: fmt::Write>(&self, f: &mut fmt::Formatter<W>) -> fmt::Result {
        let AnowAnswer { number, offset, .. } = self.0;
        write!(f, "{number}")?;
        if number != 0 {
            write!(f, " at {offset}")?;
        }
        Ok(())
    }
}

// Writes the text of the tally that a call answered, or of its refusal, as sheetcount prints them, and tells its length; 0 where it has no room.
fn put_text(answer: AnowAnswer, tally: &[u8], out: &mut [u8]) -> usize {
    if answer.number == 0 {
        return tally_text(front(tally, answer.length as usize), out).unwrap_or(0);
    }
    refusal_text(answer.number, answer.index, out).unwrap_or(0)
}

// Prints the line of a tally or of its refusal, beside what is expected.
pub(crate) fn print_tally<D: fmt::Display + Drop>(
    rt: &impl Print,
    asked: D,
    answer: AnowAnswer,
    tally: &[u8],
    expected: &[u8],
) -> io::Result<()> {
    let mut room = [0u8; 256];
    let n = put_text(answer, tally, &mut room);
    let text = front(&room, n);
    println!(rt; "{asked}: {}{}", OneLine(text), verdict(text == expected))
}
