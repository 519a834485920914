// Fields read at a place. Numbers are most significant byte first; s-numbers are two's complement.
ghost use Rattle.std.specs.Prelude.{◌≡◌, ◌<◌, ◌≤◌, drop};
ghost use Rattle.wire.specs.Formats.{prefixed};
ghost use Rattle.wire.specs.Told.{short, told_number, told_run, NumberAt};

use crate::number::Number;

// Where the bytes end inside a field, from its first byte on.
#[derive(Clone, Copy, Debug, PartialEq, Eq, Hash)]
pub struct EndsAt(pub usize);

// Reads the number of k bytes at a place: one loop serves every width.
fn bits_at(s: &[u8], at: usize, k: usize) -> Option<u64>
    requires { (0 < k) × (k ≤ 8) }
    ensures { NumberAt k (drop at s.now) result }
{
    let field = s.get(at..)?.get(..k)?;
    let mut v: u64 = 0;
    for b in field {
        v = v * 256 + u64::from(*b);
    }
    Some(v)
}

// Reads the number at a place.
pub fn number_at<T: Number>(s: &[u8], at: usize) -> Option<T>
    ensures { told_number T.WIDTH result ≡ T.read (drop at s.now) }
{
    let bits = bits_at(s, at, T::WIDTH)?;
    Some(T::from_bits(bits))
}

// Reads the run behind its length, a number of that type, at a place.
pub fn run_at<L: Number>(s: &[u8], at: usize) -> Result<usize, EndsAt>
    ensures { told_run L.WIDTH (drop at s.now) result
        ≡ (prefixed {ends = short} L.WIDTH).read (drop at s.now) }
{
    let bits = bits_at(s, at, L::WIDTH).ok_or(EndsAt(0))?;
    let n = bits as usize;
    if s.len() - at - L::WIDTH < n {
        return Err(EndsAt(L::WIDTH));
    }
    Ok(n)
}
