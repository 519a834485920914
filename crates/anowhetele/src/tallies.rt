// Tallies.
ghost use Rattle.std.specs.Prelude.{◌≡◌, Err, length};
ghost use Rattle.tally.specs.Tally.{one};
ghost use Rattle.tally.specs.Operations.{check_of, add_of, merge_of};
ghost use Rattle.tally.specs.Told.{told_add, told_merge};
ghost use Rattle.anowhetele.specs.Answers.{Handed, handed, nothing_written};

use crate::answer::{AnowAnswer, done, plain};
use crate::numbers::{NO_ROOM, PARTS_MISFIT, TALLY_MALFORMED, TOO_MANY};
use tally::add::{AddError, add};
use tally::check::check;
use tally::merge::{MergeError, merge};

// Tells whether bytes are a tally.
pub fn anow_tally_check(tally: &[u8]) -> AnowAnswer
    ensures { result ≡ handed (nothing_written (check_of one tally.now)) }
{
    match check(tally) {
        Some(_) => done(0),
        None => plain(TALLY_MALFORMED),
    }
}

impl From<AddError> for AnowAnswer {
    ghost from_gives = { λ e a. a ≡ handed (told_add (Err e)) };

    fn from(error: AddError) -> AnowAnswer {
        match error {
            AddError::NameTooLong => plain(PARTS_MISFIT),
            AddError::Malformed => plain(TALLY_MALFORMED),
            AddError::TooMany => plain(TOO_MANY),
            AddError::NoRoom => plain(NO_ROOM),
        }
    }
}

// Adds a count to a name in the tally at the front of a buffer.
pub fn anow_tally_add(buffer: &mut [u8], used: u64, name: &[u8], count: u64) -> AnowAnswer
    ensures { Handed result buffer.old buffer.new
        (add_of one buffer.old used (record { name = name.entry.now; count = count })) }
{
    add(buffer, used as usize, name, count).map_or_else(AnowAnswer::from, done)
}

impl From<MergeError> for AnowAnswer {
    ghost from_gives = { λ e a. a ≡ handed (told_merge (Err e)) };

    fn from(error: MergeError) -> AnowAnswer {
        match error {
            MergeError::Malformed => plain(TALLY_MALFORMED),
            MergeError::TooMany => plain(TOO_MANY),
            MergeError::NoRoom => plain(NO_ROOM),
        }
    }
}

// Adds two tallies by name.
pub fn anow_tally_merge(a: &[u8], b: &[u8], out: &mut [u8]) -> AnowAnswer
    ensures { Handed result out.old out.new
        (merge_of one (length out.old) a.now b.now) }
{
    merge(a, b, out).map_or_else(AnowAnswer::from, done)
}
