// Keys, lots and spans.
ghost use Rattle.std.specs.Prelude.{◌≡◌};
ghost use Rattle.position.specs.Keys.{join_of, split_of};
ghost use Rattle.anowhetele.specs.Places.{asked, lot_has, span_has, handed_key, handed_coordinates, handed_inside};

use crate::numbers::{BAD_PART, DONE, OUT_OF_RANGE};
use position::key::{Coordinates, join, split};
use position::lot::Lot;
use position::span::Span;

#[repr(C)]
#[derive(Clone, Copy, Debug, PartialEq, Eq, Hash)]
pub struct AnowKey {
    pub number: u32,
    pub key: i64,
}

#[repr(C)]
#[derive(Clone, Copy, Debug, PartialEq, Eq, Hash)]
pub struct AnowCoordinates {
    pub number: u32,
    pub x: i32,
    pub y: i32,
    pub z: i32,
}

#[repr(C)]
#[derive(Clone, Copy, Debug, PartialEq, Eq, Hash)]
pub struct AnowInside {
    pub number: u32,
    pub inside: u32,
}

// Gives the key of a block, by its coordinates.
pub fn anow_key_join(x: i32, y: i32, z: i32) -> AnowKey
    ensures { result ≡ handed_key (join_of x y z) }
{
    let Some(key) = join(x, y, z) else {
        return AnowKey {
            number: OUT_OF_RANGE,
            key: 0,
        };
    };
    AnowKey { number: DONE, key }
}

// Gives the coordinates of the block that has a key.
pub fn anow_key_split(key: i64) -> AnowCoordinates
    ensures { result ≡ handed_coordinates (split_of key) }
{
    let Some(Coordinates { x, y, z }) = split(key) else {
        return AnowCoordinates {
            number: OUT_OF_RANGE,
            x: 0,
            y: 0,
            z: 0,
        };
    };
    AnowCoordinates {
        number: DONE,
        x,
        y,
        z,
    }
}

// Makes the answer for a lot or a span: whether it is good, and whether it has what was asked for.
fn inside(fit: bool, has: bool) -> AnowInside
    ensures { result ≡ handed_inside (asked fit has) }
{
    if !fit {
        return AnowInside {
            number: BAD_PART,
            inside: 0,
        };
    }
    AnowInside {
        number: DONE,
        inside: u32::from(has),
    }
}

// Tells whether a node lies in a lot.
pub fn anow_lot_has(lot: Lot, x: i32, y: i32, z: i32) -> AnowInside
    ensures { result ≡ handed_inside (lot_has lot x y z) }
{
    inside(lot.is_good(), lot.has(x, y, z))
}

// Tells whether a second lies in a span.
pub fn anow_span_has(span: Span, second: u32) -> AnowInside
    ensures { result ≡ handed_inside (span_has span second) }
{
    inside(span.is_good(), span.has(second))
}
