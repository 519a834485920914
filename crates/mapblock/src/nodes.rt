// Node data: the widths, the three param lists, and content ids.
ghost use Rattle.std.specs.Prelude.{◌≡◌, true, ◌+◌, ◌*◌, ◌<◌, ◌≤◌, length};
ghost use Rattle.wire.specs.Told.{option_of};
ghost use Rattle.std.proofs.Math.Option.{none};
ghost use Rattle.mapblock.specs.Layout.{nodes, params, width};
ghost use Rattle.mapblock.specs.Block.{content_id};
ghost use Rattle.mapblock.specs.Params.{id_in, first_unmapped_in, holds_lists, first_unmapped_of, id_of, MarkedUpto};
ghost use Rattle.mapblock.specs.Told.{told_reach, ended};

use crate::bound::id_bound;
use crate::fault::{Fault, Refusal, behind};
use wire::fields::number_at;

// How many nodes a block has.
pub const NODES: usize = 4096;

// How many content ids there are, of two bytes each.
pub const IDS: usize = 65536;

// The bytes of the two widths before the param lists: of content ids, and of param1 and param2 together.
pub const WIDTHS_LENGTH: usize = 2;

// The second width, and its place behind the first.
const PARAMS_WIDTH: u8 = 2;

const PARAMS_WIDTH_AT: usize = 1;

// Gives how many bytes a param0 has.
pub fn width(version: u8) -> usize
    ensures { result ≡ width version }
{
    if version < 24 { 1 } else { 2 }
}

// Reads the three lists, whose bounds are tested once. In a list that is cut short the place is the first entry that is not whole.
fn params(version: u8, s: &[u8]) -> Result<usize, Refusal>
    ensures { told_reach result ≡ ended ((params version).read s.now) }
{
    let entry = width(version);
    if s.len() < NODES * entry {
        return Err(Refusal::ends(s.len() / entry * entry));
    }
    if s.len() < NODES * entry + 2 * NODES {
        return Err(Refusal::ends(s.len()));
    }
    Ok(NODES * entry + 2 * NODES)
}

// Reads the two widths, and the lists behind them.
pub fn node_data(version: u8, s: &[u8]) -> Result<usize, Refusal>
    ensures { told_reach result ≡ ended ((nodes version).read s.now) }
{
    let content = number_at::<u8>(s, 0).ok_or(Refusal::ends(0))?;
    if usize::from(content) != width(version) {
        return Err(Refusal::from(Fault::ContentWidth));
    }
    let two = number_at::<u8>(s, PARAMS_WIDTH_AT).ok_or(Refusal::ends(PARAMS_WIDTH_AT))?;
    if two != PARAMS_WIDTH {
        return Err(Refusal {
            fault: Fault::ParamsWidth,
            offset: PARAMS_WIDTH_AT,
        });
    }
    let n = behind(WIDTHS_LENGTH, params(version, &s[WIDTHS_LENGTH..]))?;
    Ok(WIDTHS_LENGTH + n)
}

// Computes the content id of a node from its params.
pub fn content_id(version: u8, param0: u16, param2: u8) -> usize
    ensures { result ≡ content_id version param0 param2 }
{
    if 24 <= version {
        return usize::from(param0);
    }
    if param0 < 128 {
        return usize::from(param0);
    }
    16 * usize::from(param0) + usize::from(param2) / 16
}

// Computes the content id of the node at an index from the lists' bytes. From version 24 on its param2 has no part in it.
fn id_in(version: u8, s: &[u8], i: usize) -> usize
    requires { (i < 4096) × (4096 * width version + 8192 ≤ length s.now) }
    ensures told { result ≡ id_in version s.now i }
    ensures bounded { result < 65536 }
{
    if 24 <= version {
        return content_id(
            version,
            u16::from(s[2 * i]) * 256 + u16::from(s[2 * i + 1]),
            0,
        );
    }
    content_id(version, u16::from(s[i]), s[2 * NODES + i])
}

// Finds the first node whose content id is not marked as mapped, in bytes that hold the lists. As part of a large function its loop is compiled with a
// test of the version at each node.
#[inline(never)]
fn first_unmapped_in(version: u8, s: &[u8], ids: &[u8; IDS]) -> Option<usize>
    requires { 4096 * width version + 8192 ≤ length s.now }
    ensures { option_of result ≡ first_unmapped_in version s.now ids.now }
{
    for i in 0..NODES {
        if ids[id_in(version, s, i)] == 0 {
            return Some(i);
        }
    }
    None
}

// Tells whether every id up to a bound is marked as mapped.
fn marked_upto(ids: &[u8; IDS], bound: usize) -> bool
    requires { bound < 65536 }
    ensures { result ≡ true → MarkedUpto ids.now bound }
{
    for mark in &ids[..=bound] {
        if *mark == 0 {
            return false;
        }
    }
    true
}

// Tells whether all ids are mapped, as far as a bound on them shows: servers number a block's ids from 0 on, with no gap, and where every id
// up to a bound is mapped no node need be looked up. False says nothing.
fn all_mapped(version: u8, s: &[u8], ids: &[u8; IDS]) -> bool
    requires { 4096 * width version + 8192 ≤ length s.now }
    ensures { result ≡ true → first_unmapped_in version s.now ids.now ≡ none }
{
    24 <= version && marked_upto(ids, id_bound(s))
}

// Tells whether bytes hold the three lists.
pub fn holds_lists(version: u8, s: &[u8]) -> bool
    ensures { result ≡ holds_lists version s.now }
{
    NODES * width(version) + 2 * NODES <= s.len()
}

// Finds the first node whose content id is not marked as mapped, in any bytes: none where they do not hold the lists.
pub fn first_unmapped(version: u8, s: &[u8], ids: &[u8; IDS]) -> Option<usize>
    ensures { option_of result ≡ first_unmapped_of version s.now ids.now }
{
    if !holds_lists(version, s) || all_mapped(version, s, ids) {
        return None;
    }
    first_unmapped_in(version, s, ids)
}

// Gives the content id of the node at an index, and 0 where there is none.
pub fn id_of(version: u8, s: &[u8], i: usize) -> usize
    ensures { result ≡ id_of version s.now i }
{
    if i < NODES && holds_lists(version, s) {
        id_in(version, s, i)
    } else {
        0
    }
}
