// A lot clipped to a block.
ghost use Rattle.std.specs.Prelude.{◌≡◌, ◌≤◌};
ghost use Rattle.std.proofs.Props.{props};
ghost use Rattle.census.specs.Clamps.{clamp_of, below_of, upto_of};

use position::key::Coordinates;
use position::lot::Lot;

// The first of a block's sixteen steps on each axis that lies in the lot, then the first behind it that does not. All stay in the block.
#[derive(Clone, Copy, Debug, PartialEq, Eq, Hash)]
pub struct Clip {
    pub x0: usize,
    pub y0: usize,
    pub z0: usize,
    pub x1: usize,
    pub y1: usize,
    pub z1: usize,
    ghost first: { (x0 ≤ 16) × (y0 ≤ 16) × (z0 ≤ 16) } by { Prim.hlevel props },
    ghost last: { (x1 ≤ 16) × (y1 ≤ 16) × (z1 ≤ 16) } by { Prim.hlevel props },
}

// Holds a number to 0..16.
fn clamp16(d: i64) -> usize
    ensures { result ≡ clamp_of d }
{
    d.clamp(0, 16) as usize
}

// Tells how many of a block's sixteen node coordinates on an axis are below v.
fn below(v: i32, block: i32) -> usize
    ensures { result ≡ below_of v block }
{
    clamp16(i64::from(v) - i64::from(block) * 16)
}

// Tells how many of them are not above v.
fn upto(v: i32, block: i32) -> usize
    ensures { result ≡ upto_of v block }
{
    clamp16(i64::from(v) - i64::from(block) * 16 + 1)
}

// Clips a lot to the block at some coordinates. Where no node of the block lies in the lot, a first step may come behind the last one.
pub(crate) fn clip_to(lot: Lot, at: Coordinates) -> Clip
    ensures x { (result.x0 ≡ below_of lot.x0 at.x) × (result.x1 ≡ upto_of lot.x1 at.x) }
    ensures y { (result.y0 ≡ below_of lot.y0 at.y) × (result.y1 ≡ upto_of lot.y1 at.y) }
    ensures z { (result.z0 ≡ below_of lot.z0 at.z) × (result.z1 ≡ upto_of lot.z1 at.z) }
{
    Clip {
        x0: below(lot.x0, at.x),
        y0: below(lot.y0, at.y),
        z0: below(lot.z0, at.z),
        x1: upto(lot.x1, at.x),
        y1: upto(lot.y1, at.y),
        z1: upto(lot.z1, at.z),
    }
}
