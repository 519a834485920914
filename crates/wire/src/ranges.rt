// Ranges: where a run of bytes stands in a caller's bytes, by its start and its length.
ghost use Rattle.wire.specs.Ranges.{IsSlice};

// A run of bytes in the caller's bytes. It crosses to a host as it is.
#[repr(C)]
#[derive(Clone, Copy, Debug, PartialEq, Eq, Hash)]
pub struct Range {
    pub start: usize,
    pub length: usize,
}

// Of a run that is not there.
pub const NO_RANGE: Range = Range {
    start: 0,
    length: 0,
};

// Gives the bytes of a range as a slice; of a range that reaches past the end, what is there.
pub fn slice_of(s: &[u8], range: Range) -> &[u8]
    ensures { IsSlice s.entry range result }
{
    let rest = &s[range.start.min(s.len())..];
    &rest[..range.length.min(rest.len())]
}
