// Bytes compared in order: byte by byte, a prefix first.
ghost use Rattle.std.specs.Prelude.{◌≡◌};
ghost use Rattle.wire.specs.Order.{order};

use crate::fields::number_at;
use std::cmp::Ordering;

// How many times eight bytes are compared as a number, which has the same order. Most names differ there.
const WORDS: usize = 2;

// Tells how a stands to b by the library's order of slices, which passes long runs of equal bytes at once.
fn compare_rest(a: &[u8], b: &[u8]) -> Ordering
    ensures { result ≡ order a.now b.now }
{
    a.cmp(b)
}

// Tells how a stands to b.
pub fn compare(a: &[u8], b: &[u8]) -> Ordering
    ensures { result ≡ order a.now b.now }
{
    for word in 0..WORDS {
        let at = 8 * word;
        let (Some(x), Some(y)) = (number_at::<u64>(a, at), number_at::<u64>(b, at)) else {
            return compare_rest(&a[at..], &b[at..]);
        };
        if x != y {
            return x.cmp(&y);
        }
    }
    compare_rest(&a[8 * WORDS..], &b[8 * WORDS..])
}
