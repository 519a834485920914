// Bytes and numbers stored at a place of a lent buffer, where they fit; where they do not, nothing changes.
ghost use Rattle.std.specs.Prelude.{◌≡◌};
ghost use Rattle.wire.specs.Bytes.{to_be};
ghost use Rattle.wire.specs.Store.{stored, moved_back};

use crate::number::Number;

// Puts the number v in k bytes at a place, the last byte first: one loop serves every width.
fn put_bits(out: &mut [u8], at: usize, k: usize, v: u64)
    ensures { out.new ≡ stored at (to_be k v) out.old }
{
    if out.len() < at || out.len() - at < k {
        return;
    }
    let mut x = v;
    for i in (0..k).rev() {
        out[at + i] = (x % 256) as u8;
        x = x / 256;
    }
}

// Puts a number at a place.
pub fn put_number<T: Number>(out: &mut [u8], at: usize, number: T)
    ensures { out.new ≡ stored at (T.encode number) out.old }
{
    put_bits(out, at, T::WIDTH, number.to_bits());
}

// Copies the bytes of another slice to a place.
pub fn put_bytes(out: &mut [u8], at: usize, from: &[u8])
    ensures { out.new ≡ stored at from.now out.old }
{
    if out.len() < at || out.len() - at < from.len() {
        return;
    }
    for i in 0..from.len() {
        out[at + i] = from[i];
    }
}

// Moves the first n bytes back by so many places, from the last on, so that none is lost; the bytes before them stay.
pub fn move_back(s: &mut [u8], n: usize, by: usize)
    ensures { s.new ≡ moved_back n by s.old }
{
    if s.len() < by || s.len() - by < n {
        return;
    }
    for i in (0..n).rev() {
        s[i + by] = s[i];
    }
}
