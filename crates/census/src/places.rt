// Names by places: a place is where a row stands in a section of names.
ghost use Rattle.std.specs.Prelude.{◌≡◌, ◌<◌};
ghost use Rattle.wire.specs.Places.{place_in};
ghost use Rattle.census.specs.NamePlaces.{row_at, name_start_at, count_at};

use mapblock::names::name_row;
use mapblock::nodes::IDS;
use wire::ranges::slice_of;

// Gives the name in the row at a place, empty where none stands there.
pub fn name_at(s: &[u8], p: usize) -> &[u8]
    ensures told { result.now ≡ (row_at s.now p).name }
    ensures place { result.ref_ptr ≡ place_in s.entry (name_start_at s.now p) }
{
    if s.len() < p {
        return &s[..0];
    }
    let rest = &s[p..];
    let Ok((row, _)) = name_row(rest) else {
        return &s[..0];
    };
    slice_of(rest, row.name)
}

// Gives the id in the row at a place, 0 where none stands there.
pub fn id_at(s: &[u8], p: usize) -> usize
    ensures told { result ≡ (row_at s.now p).id }
    ensures bounded { result < 65536 }
{
    let Some(rest) = s.get(p..) else {
        return 0;
    };
    let Ok((row, _)) = name_row(rest) else {
        return 0;
    };
    usize::from(row.id)
}

// Gives the counter of the id in the row at a place.
pub fn count_at(s: &[u8], counts: &[u16; IDS], p: usize) -> u64
    ensures { result ≡ count_at s.now counts.now p }
{
    u64::from(counts[id_at(s, p)])
}
