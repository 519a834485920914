// The head of a tally: the mark, the version and the number of rows.
ghost use Rattle.std.specs.Prelude.{◌≡◌};
ghost use Rattle.wire.specs.Read.{to_option};
ghost use Rattle.wire.specs.Store.{stored};
ghost use Rattle.wire.specs.Told.{told_head};
ghost use Rattle.tally.specs.Tally.{tally_head, head_bytes, one};

use wire::heads::read_head;

// The mark of a tally.
const MARK: &[u8; 3] = b"TLY";

// Reads the number of rows that the head states.
pub(crate) fn stated_rows(t: &[u8]) -> Option<u32>
    ensures { told_head result ≡ to_option (tally_head.read t.now) }
{
    read_head(t, MARK)
}

// Puts the head at the front, where it fits; where it does not, nothing changes.
pub fn put_head(out: &mut [u8], count: u32)
    ensures { out.new ≡ stored 0 (head_bytes one count) out.old }
{
    wire::heads::put_head(out, MARK, count);
}
