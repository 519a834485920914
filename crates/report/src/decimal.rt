// Numbers in decimal digits.
ghost use Rattle.std.specs.Prelude.{◌≡◌, ◌≤◌, length};
ghost use Rattle.wire.specs.Store.{stored};
ghost use Rattle.report.specs.Text.{decimal};

use itoa::Buffer;
use wire::store::put_bytes;

// Puts the digits at a place of a buffer, where they fit, and tells how many they are.
pub(crate) fn put_decimal(out: &mut [u8], at: usize, n: u64) -> usize
    ensures told { result ≡ length (decimal n) }
    ensures short { result ≤ 20 }
    ensures out { out.new ≡ stored at (decimal n) out.old }
{
    let mut buffer = Buffer::new();
    let digits = buffer.format(n);
    put_bytes(out, at, digits.as_bytes());
    digits.len()
}

// Tells how many digits a number has, so that a line can be measured before it is put.
pub(crate) fn decimal_length(n: u64) -> usize
    ensures told { result ≡ length (decimal n) }
    ensures short { result ≤ 20 }
{
    Buffer::new().format(n).len()
}
