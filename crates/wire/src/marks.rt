// Fixed marks compared at a place; put_bytes of store writes them.
ghost use Rattle.std.specs.Prelude.{◌≡◌, drop};
ghost use Rattle.wire.specs.Marks.{starts};

// Tells whether the bytes at a place begin with the mark.
pub fn mark_at(s: &[u8], at: usize, mark: &[u8]) -> bool
    ensures { result ≡ starts mark.now (drop at s.now) }
{
    s[at.min(s.len())..].starts_with(mark)
}
