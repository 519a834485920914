// The census of a block: what every count by name is made of.
ghost use Rattle.std.specs.Prelude.{◌≡◌, ℕ, ◌≤◌, false, length, take};
ghost use Rattle.wire.specs.Read.{done};
ghost use Rattle.wire.specs.Ranges.{bytes_in};
ghost use Rattle.position.specs.Spans.{in_span};
ghost use Rattle.mapblock.specs.Data.{Block};
ghost use Rattle.mapblock.specs.Layout.{all};
ghost use Rattle.mapblock.specs.Block.{verdict};
ghost use Rattle.block_reader.specs.Sections.{scanned_of};
ghost use Rattle.mapblock.specs.Table.{clear_table};
ghost use Rattle.census.specs.Census.{Counted, Census};

use crate::count::count_in;
use crate::sort::sort;
use crate::used::used;
use block_reader::scan::Scanned;
use mapblock::nodes::{IDS, NODES};
use position::key::Coordinates;
use position::part::Part;
use wire::ranges::slice_of;

// Counts the nodes of a block that stand in a part by content id, and tells whether the block was saved within the span. The block stands at
// `at`, and `scanned` is what the scan told of it. This is an inner function: of whatever counters it promises that a block outside the span
// leaves them as they were, and of clear ones the counts; `clear` makes them so again.
pub fn count_nodes(
    block: &[u8],
    scanned: Scanned,
    at: Coordinates,
    part: Part,
    counts: &mut [u16; IDS],
) -> bool
    ensures within { result ≡ in_span part.span scanned.head.timestamp }
    ensures outside { in_span part.span scanned.head.timestamp ≡ false
        → counts.new ≡ counts.old }
    ensures told { (b : Block) (end : ℕ) → verdict all block.now ≡ done b end → scanned_of b ≡ scanned
        → counts.old ≡ clear_table → Counted part at b counts.new }
{
    let head = scanned.head;
    let span = part.span;
    if !span.has(head.timestamp) {
        return false;
    }
    let lists = block.get(scanned.lists..).unwrap_or(&[]);
    count_in(head.version, lists, at, part.lot, counts);
    true
}

// Counts the nodes of a block that stand in a part by content id, and puts the places of the names that they use in order, at the front of
// `places`; tells how many these are. The block stands at `at`, and `scanned` is what the scan told of it. This is an inner function: of
// whatever tables it promises that a block outside the span leaves the counters as they were, and of clear counters the census; `clear` makes
// them so again. `scratch` is a table to work in: what it holds afterwards is open.
pub fn take_census(
    block: &[u8],
    scanned: Scanned,
    at: Coordinates,
    part: Part,
    counts: &mut [u16; IDS],
    places: &mut [usize; NODES],
    scratch: &mut [usize; NODES],
) -> usize
    ensures bounded { result ≤ 4096 }
    ensures kept { length places.new ≡ 4096 }
    ensures outside { in_span part.span scanned.head.timestamp ≡ false
        → (result ≡ 0) × (counts.new ≡ counts.old) }
    ensures told { (b : Block) (end : ℕ) → verdict all block.now ≡ done b end → scanned_of b ≡ scanned
        → counts.old ≡ clear_table
        → Census part at b (bytes_in block.now scanned.sections.names) counts.new
        (take result places.new) }
{
    if !count_nodes(block, scanned, at, part, counts) {
        return 0;
    }
    let sections = scanned.sections;
    let names = slice_of(block, sections.names);
    let n = used(names, counts, places);
    sort(names, &mut places[..n], scratch);
    n
}
