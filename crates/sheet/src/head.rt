// The head of a sheet: the mark, the version and the number of records.
ghost use Rattle.std.specs.Prelude.{◌≡◌};
ghost use Rattle.wire.specs.Read.{to_option};
ghost use Rattle.wire.specs.Told.{told_head};
ghost use Rattle.sheet.specs.Sheet.{sheet_head};

use wire::heads::read_head;

// Reads the number of records that the head states.
pub fn sheet_head(s: &[u8]) -> Option<u32>
    ensures { told_head result ≡ to_option (sheet_head.read s.now) }
{
    read_head(s, b"WSH")
}
