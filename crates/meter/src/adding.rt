// What stands of one block in a part, added to a running tally.
ghost use Rattle.std.specs.Prelude.{◌≡◌, length};
ghost use Rattle.mapblock.specs.Data.{Block};
ghost use Rattle.tally.specs.Rows.{Rows};
ghost use Rattle.tally.specs.Tally.{ones};
ghost use Rattle.meter.specs.Adding.{Adds, Added, with_block};

use crate::tables::CensusTables;
use block_reader::scan::Scanned;
use census::census::take_census;
use census::clear::clear;
use position::key::Coordinates;
use position::part::Part;
use running_tally::absorb::absorb;
use running_tally::state::RunningTally;
use wire::ranges::slice_of;

// Takes the census of a block, adds the names that it counts to the running tally whose rows are in a buffer, and clears the counters
// again by the block's names.
pub(crate) fn add_block(
    block: &[u8],
    scanned: Scanned,
    at: Coordinates,
    part: Part,
    tables: &mut CensusTables,
    buffer: &mut [u8],
    running: Option<RunningTally>,
) -> Option<RunningTally>
    ensures kept { length buffer.new ≡ length buffer.old }
    ensures told { (b : Block) (R : Rows ones)
        → Adds block.now scanned tables.old.counts buffer.old running b R
        → Added tables.new.counts buffer.old buffer.new result R (with_block part at b R) }
{
    let n = take_census(
        block,
        scanned,
        at,
        part,
        &mut tables.counts,
        &mut tables.places,
        &mut tables.scratch,
    );
    let names = slice_of(block, scanned.sections.names);
    let sum = absorb(names, &tables.counts, &tables.places[..n], buffer, running);
    clear(names, &mut tables.counts);
    sum
}
