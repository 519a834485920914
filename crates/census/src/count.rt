// Counting by content id: each node that lies in the lot raises the counter of its id by one. Counters wrap, and the contracts say so; clear ones
// never do, since a block has 4,096 nodes.
ghost use Rattle.std.specs.Prelude.{◌≡◌, ◌+◌, ◌-◌, ◌*◌, ◌<◌, ◌≤◌, true, false, length};
ghost use Rattle.mapblock.specs.Layout.{width};
ghost use Rattle.mapblock.specs.Params.{id_in, holds_lists};
ghost use Rattle.census.specs.CountsById.{CountsById, Raised};
ghost use Rattle.census.specs.Counters.{is_at, wide_id, narrow_id};
ghost use Rattle.census.specs.Clips.{clip_with};

use crate::clip::{Clip, clip_to};
use mapblock::nodes::{IDS, NODES, content_id, holds_lists};
use position::key::Coordinates;
use position::lot::Lot;

// Gives the content id of the node at an index, where it has two bytes.
fn wide_id(lists: &[u8], i: usize) -> usize
    requires { 2 * i + 1 < length lists.now }
    ensures told { result ≡ wide_id lists.now i }
    ensures bounded { result < 65536 }
{
    usize::from(lists[2 * i]) * 256 + usize::from(lists[2 * i + 1])
}

// Counts the nodes at from..until one by one.
fn count_each(lists: &[u8], from: usize, until: usize, counts: &mut [u16; IDS])
    requires { 2 * until ≤ length lists.now }
    ensures { Raised (is_at (wide_id lists.now)) from (until - from) counts.old
        counts.new }
{
    for i in from..until {
        let id = wide_id(lists, i);
        counts[id] = counts[id].wrapping_add(1);
    }
}

// Counts four nodes. Neighbours mostly have the same id, and then their counter is raised once: of four raises each
// needs the result of the one before.
fn count_four(lists: &[u8], i: usize, counts: &mut [u16; IDS])
    requires { 2 * i + 8 ≤ length lists.now }
    ensures { Raised (is_at (wide_id lists.now)) i 4 counts.old counts.new }
{
    let id = wide_id(lists, i);
    let b = wide_id(lists, i + 1);
    let c = wide_id(lists, i + 2);
    let d = wide_id(lists, i + 3);
    if b == id && c == id && d == id {
        counts[id] = counts[id].wrapping_add(4);
    } else {
        count_each(lists, i, i + 4, counts);
    }
}

// Counts the row of nodes at from..until, with content ids of two bytes.
fn count_wide(lists: &[u8], from: usize, until: usize, counts: &mut [u16; IDS])
    requires { 2 * until ≤ length lists.now }
    ensures { Raised (is_at (wide_id lists.now)) from (until - from) counts.old
        counts.new }
{
    let mut i = from;
    while 4 <= until.saturating_sub(i) {
        count_four(lists, i, counts);
        i += 4;
    }
    count_each(lists, i, until, counts);
}

// Counts such a row where a param0 has one byte.
fn count_narrow(version: u8, lists: &[u8], from: usize, until: usize, counts: &mut [u16; IDS])
    requires { 8192 + until ≤ length lists.now }
    ensures { Raised (is_at (narrow_id version lists.now)) from (until - from) counts.old
        counts.new }
{
    for i in from..until {
        let id = content_id(version, u16::from(lists[i]), lists[2 * NODES + i]);
        counts[id] = counts[id].wrapping_add(1);
    }
}

// Counts a row of nodes. The width is the same for all of a block's nodes, so it is asked once for each row.
fn count_row(version: u8, lists: &[u8], from: usize, until: usize, counts: &mut [u16; IDS])
    requires { (until ≤ 4096) × (4096 * width version + 8192 ≤ length lists.now) }
    ensures { Raised (is_at (id_in version lists.now)) from (until - from) counts.old
        counts.new }
{
    if 24 <= version {
        count_wide(lists, from, until, counts);
    } else {
        count_narrow(version, lists, from, until, counts);
    }
}

// Counts the rows of the clip at one z.
fn count_layer(version: u8, lists: &[u8], clip: Clip, z: usize, counts: &mut [u16; IDS])
    requires { (clip.z0 ≤ z) × (z < clip.z1) × (4096 * width version + 8192 ≤ length lists.now) }
    ensures { Raised (clip_with clip (id_in version lists.now)) (z * 256) 256 counts.old
        counts.new }
{
    for y in clip.y0..clip.y1 {
        let row = z * 256 + y * 16;
        count_row(version, lists, row + clip.x0, row + clip.x1, counts);
    }
}

// Counts the nodes of a clip. They lie in rows, so that no node is tested.
fn count_clip(version: u8, lists: &[u8], clip: Clip, counts: &mut [u16; IDS])
    requires { 4096 * width version + 8192 ≤ length lists.now }
    ensures { Raised (clip_with clip (id_in version lists.now)) 0 4096 counts.old
        counts.new }
{
    for z in clip.z0..clip.z1 {
        count_layer(version, lists, clip, z, counts);
    }
}

// Counts the nodes of a block that lie in a lot: `lists` are the bytes of its param lists, `at` is where the block stands. Bytes that do
// not hold the lists have no nodes, and leave the counters as they are.
pub(crate) fn count_in(
    version: u8,
    lists: &[u8],
    at: Coordinates,
    lot: Lot,
    counts: &mut [u16; IDS],
)
    ensures counts { holds_lists version lists.now ≡ true
        → CountsById version lists.now lot at counts.old counts.new }
    ensures kept { holds_lists version lists.now ≡ false
        → counts.new ≡ counts.old }
{
    if holds_lists(version, lists) {
        count_clip(version, lists, clip_to(lot, at), counts);
    }
}
