// A table of counters that is used again is cleared by the names that it was counted for, and not whole.
ghost use Rattle.std.specs.Prelude.{◌≡◌};
ghost use Rattle.mapblock.specs.Table.{unmarked, all_rows};

use mapblock::names::name_row;
use mapblock::nodes::IDS;

// Sets the counter of each mapped id to 0, by the rows at the front of `names`.
pub fn clear(names: &[u8], counts: &mut [u16; IDS])
    ensures { counts.new ≡ unmarked counts.old (all_rows names.now) }
{
    let mut rest = names;
    while let Ok((row, n)) = name_row(rest) {
        counts[usize::from(row.id)] = 0;
        rest = &rest[n..];
    }
}
