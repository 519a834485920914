// Lots: boxes of nodes, both ends inside.
ghost use Rattle.std.specs.Prelude.{◌≡◌};
ghost use Rattle.position.specs.Lots.{axis, good_lot, in_lot, world, lot_of, told_lot};

use crate::key::is_between;

// The least coordinate on each axis, then the greatest. It crosses to a host as it is.
#[repr(C)]
#[derive(Clone, Copy, Debug, PartialEq, Eq, Hash)]
pub struct Lot {
    pub x0: i32,
    pub y0: i32,
    pub z0: i32,
    pub x1: i32,
    pub y1: i32,
    pub z1: i32,
}

// The world on each axis.
const LEAST: i32 = -32768;

const GREATEST: i32 = 32767;

// Tells whether the ends on one axis lie in the world and are not turned round.
#[tactic(auto, unfolding(crate::specs::Keys::between, crate::specs::Lots::axis))]
fn is_axis(a: i32, b: i32) -> bool
    ensures { result ≡ axis a b }
{
    LEAST <= a && is_between(a, b, GREATEST)
}

impl Lot {
    pub const WORLD: Lot = Lot {
        x0: LEAST,
        y0: LEAST,
        z0: LEAST,
        x1: GREATEST,
        y1: GREATEST,
        z1: GREATEST,
    };

    // Tells whether the lot lies in the world and is not turned round.
    pub fn is_good(self) -> bool
        ensures { result ≡ good_lot self }
    {
        is_axis(self.x0, self.x1) && is_axis(self.y0, self.y1) && is_axis(self.z0, self.z1)
    }

    // Makes a lot, if it is good; else none. A constant has no contract of its own, so this one says what the whole world is.
    #[tactic(auto, unfolding(crate::specs::Lots::lot_of))]
    pub fn new(x0: i32, y0: i32, z0: i32, x1: i32, y1: i32, z1: i32) -> Option<Lot>
        ensures told { told_lot result ≡ lot_of x0 y0 z0 x1 y1 z1 }
        ensures least { (Lot.WORLD.x0 ≡ world.x0)
            × (Lot.WORLD.y0 ≡ world.y0)
            × (Lot.WORLD.z0 ≡ world.z0) }
        ensures greatest { (Lot.WORLD.x1 ≡ world.x1)
            × (Lot.WORLD.y1 ≡ world.y1)
            × (Lot.WORLD.z1 ≡ world.z1) }
    {
        let lot = Lot {
            x0,
            y0,
            z0,
            x1,
            y1,
            z1,
        };
        lot.is_good().then_some(lot)
    }

    // Tells whether a node lies in the lot.
    pub fn has(self, x: i32, y: i32, z: i32) -> bool
        ensures { result ≡ in_lot self x y z }
    {
        is_between(self.x0, x, self.x1)
            && is_between(self.y0, y, self.y1)
            && is_between(self.z0, z, self.z1)
    }
}
