// What putting text into a buffer answers.
ghost use Rattle.std.specs.Prelude.{◌≡◌};
ghost use Rattle.report.specs.Told.{length_put};

// Why no text was put: the tally is malformed, or the buffer is too short.
#[derive(Clone, Copy, Debug, PartialEq, Eq, Hash)]
pub enum TextError {
    Malformed,
    NoRoom,
}

// Tells the length of the text that was put; 0 where none was.
pub fn put_length(answer: Result<usize, TextError>) -> usize
    ensures { result ≡ length_put answer }
{
    answer.unwrap_or(0)
}
