// What a running tally is besides its bytes.
ghost use Rattle.std.specs.Prelude.{◌≡◌};
ghost use Rattle.running_tally.specs.RunningTally.{none};

// How many bytes the rows take and how many they are. Once the rows are longer than the buffer the running tally is `None`, and it stays so.
#[derive(Clone, Copy, Debug, PartialEq, Eq, Hash)]
pub struct RunningTally {
    pub size: usize,
    pub rows: u64,
}

// Makes a running tally of no rows, which the definition `none` tells. It is a `Some`; `None` is what is left of a tally that outgrew its buffer.
pub fn empty() -> Option<RunningTally>
    ensures { result ≡ none }
{
    Some(RunningTally { size: 0, rows: 0 })
}
