// Keys, lots and spans.
ghost use Rattle.std.specs.Prelude.{◌≡◌};
ghost use Rattle.position.specs.Keys.{join_of, split_of};
ghost use Rattle.anowhetele.specs.Places.{lot_has, span_has, handed_key, handed_coordinates, handed_inside};

use anowhetele::places::{AnowCoordinates, AnowInside, AnowKey};
use position::lot::Lot;
use position::span::Span;

// Gives the key of a block, by its coordinates.
#[unsafe(no_mangle)]
pub extern "C" fn anow_key_join(x: i32, y: i32, z: i32) -> AnowKey
    ensures { result ≡ handed_key (join_of x y z) }
{
    anowhetele::places::anow_key_join(x, y, z)
}

// Gives the coordinates of the block that has a key.
#[unsafe(no_mangle)]
pub extern "C" fn anow_key_split(key: i64) -> AnowCoordinates
    ensures { result ≡ handed_coordinates (split_of key) }
{
    anowhetele::places::anow_key_split(key)
}

// Tells whether a node lies in a lot.
#[unsafe(no_mangle)]
pub extern "C" fn anow_lot_has(lot: Lot, x: i32, y: i32, z: i32) -> AnowInside
    ensures { result ≡ handed_inside (lot_has lot x y z) }
{
    anowhetele::places::anow_lot_has(lot, x, y, z)
}

// Tells whether a second lies in a span.
#[unsafe(no_mangle)]
pub extern "C" fn anow_span_has(span: Span, second: u32) -> AnowInside
    ensures { result ≡ handed_inside (span_has span second) }
{
    anowhetele::places::anow_span_has(span, second)
}
