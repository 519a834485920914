// Tallies.
ghost use Rattle.std.specs.Prelude.{◌≡◌, length};
ghost use Rattle.tally.specs.Tally.{one};
ghost use Rattle.tally.specs.Operations.{check_of, add_of, merge_of};
ghost use Rattle.anowhetele.specs.Answers.{Handed, handed, nothing_written};

use anowhetele::answer::AnowAnswer;

// Tells whether bytes are a tally.
#[unsafe(no_mangle)]
pub extern "C" fn anow_tally_check(tally: &[u8]) -> AnowAnswer
    ensures { result ≡ handed (nothing_written (check_of one tally.now)) }
{
    anowhetele::tallies::anow_tally_check(tally)
}

// Adds a count to a name in the tally at the front of a buffer.
#[unsafe(no_mangle)]
pub extern "C" fn anow_tally_add(
    buffer: &mut [u8],
    used: u64,
    name: &[u8],
    count: u64,
) -> AnowAnswer
    ensures { Handed result buffer.old buffer.new
        (add_of one buffer.old used (record { name = name.entry.now; count = count })) }
{
    anowhetele::tallies::anow_tally_add(buffer, used, name, count)
}

// Adds two tallies by name.
#[unsafe(no_mangle)]
pub extern "C" fn anow_tally_merge(a: &[u8], b: &[u8], out: &mut [u8]) -> AnowAnswer
    ensures { Handed result out.old out.new
        (merge_of one (length out.old) a.now b.now) }
{
    anowhetele::tallies::anow_tally_merge(a, b, out)
}
