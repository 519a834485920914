// Position keys: three block coordinates in one signed number, and back.
ghost use Rattle.std.specs.Prelude.{◌<◌, ◌≡◌, true, nat_abs};
ghost use Rattle.position.specs.Keys.{between, inside, all_inside, key_of, moved, is_key, lowered, join_of, split_of, told_join, told_split};

#[derive(Clone, Copy, Debug, PartialEq, Eq, Hash)]
pub struct Coordinates {
    pub x: i32,
    pub y: i32,
    pub z: i32,
}

// Half of what a field of twelve bits holds: so many coordinates are below 0.
const HALF: i32 = 2048;

// What a step along y adds to a key, and one along z.
const Y_STEP: i64 = 4_096;

const Z_STEP: i64 = 16_777_216;

// How many numbers one field of a shifted key holds, and how many two hold.
const FIELD: u64 = Y_STEP as u64;

const TWO_FIELDS: u64 = Z_STEP as u64;

// What is added to a key, so that no field is below 0.
const SHIFT: i64 = 34_368_129_024;

// The ends of the keys that are three fields when shifted.
const LEAST_KEY: i64 = -SHIFT;

const GREATEST_KEY: i64 = 34_351_347_711;

// Tells whether c lies from a to b.
#[tactic(auto, unfolding(crate::specs::Keys::between))]
pub(crate) fn is_between(a: i32, c: i32, b: i32) -> bool
    ensures { result ≡ between a c b }
{
    (a..=b).contains(&c)
}

// Tells whether a block coordinate is in range.
pub(crate) fn is_inside(c: i32) -> bool
    ensures { result ≡ inside c }
{
    is_between(-HALF, c, HALF - 1)
}

// Tells whether all three are.
pub(crate) fn are_inside(x: i32, y: i32, z: i32) -> bool
    ensures { result ≡ all_inside x y z }
{
    is_inside(x) && is_inside(y) && is_inside(z)
}

// Gives the key of a block, by its coordinates; none where one is out of range.
#[tactic(auto, using(std::proofs::lemmas::Int::ints), unfolding(crate::specs::Keys::join_of, crate::specs::Keys::key_of))]
pub fn join(x: i32, y: i32, z: i32) -> Option<i64>
    ensures { told_join result ≡ join_of x y z }
{
    if !are_inside(x, y, z) {
        return None;
    }
    Some(i64::from(z) * Z_STEP + i64::from(y) * Y_STEP + i64::from(x))
}

// Tells whether a key is in range. The test is on the key itself: the shifted number of a key near 2^63 would not fit.
#[tactic(auto, using(std::proofs::lemmas::Int::ints), unfolding(crate::specs::Keys::is_key, crate::specs::Keys::between, crate::specs::Keys::moved))]
pub(crate) fn is_key(key: i64) -> bool
    ensures { result ≡ is_key key }
{
    (LEAST_KEY..=GREATEST_KEY).contains(&key)
}

// Shifts a key so that no field is below 0. The whole shift comes before any remainder, so that none is taken of a negative number and rounds toward zero.
#[tactic(auto, using(std::proofs::lemmas::Int::ints), unfolding(crate::specs::Keys::moved, crate::specs::Keys::is_key, crate::specs::Keys::between))]
fn shifted(key: i64) -> u64
    requires { is_key key ≡ true }
    ensures moved { result ≡ nat_abs (moved key) }
    ensures three_fields { result < 68_719_476_736 }
{
    (key + SHIFT) as u64
}

// Takes the shift off a field: this is the coordinate.
#[tactic(auto, unfolding(crate::specs::Keys::lowered))]
fn low(field: u64) -> i32
    requires { field < 4096 }
    ensures { result ≡ lowered field }
{
    field as i32 - HALF
}

// Gives the coordinates of the block that has a key; none where the key is out of range. The range is judged first: near 2^63 the shift would not fit.
#[tactic(auto, unfolding(crate::specs::Keys::split_of))]
pub fn split(key: i64) -> Option<Coordinates>
    ensures { told_split result ≡ split_of key }
{
    if !is_key(key) {
        return None;
    }
    let s = shifted(key);
    Some(Coordinates {
        x: low(s % FIELD),
        y: low(s / FIELD % FIELD),
        z: low(s / TWO_FIELDS),
    })
}
