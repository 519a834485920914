// The counted names at places, which are in the order of their names, added to a running tally: one pass adds to the counts of names that
// have a row, and where names are new a second one puts their rows, so that no row moves more than twice. Sums wrap where the
// rows are not those of a running tally, of which alone something is promised: no caller has to bound a count.
ghost use Rattle.std.specs.Prelude.{◌≡◌, ◌+◌, ◌<◌, ◌≤◌, length, take, drop};
ghost use Rattle.wire.specs.Store.{overwrite};
ghost use Rattle.tally.specs.Rows.{Rows, plus};
ghost use Rattle.tally.specs.Tally.{ones};
ghost use Rattle.census.specs.NamePlaces.{counted_names};
ghost use Rattle.running_tally.specs.RunningTally.{Absorbs, Absorbed};
ghost use Rattle.running_tally.specs.Groups.{Grouped};
ghost use Rattle.running_tally.specs.Passes.{RaisedTo, RaisedAs, Inside, FilledTo, Fills, Filled, Spreads};

use crate::state::RunningTally;
use census::places::{count_at, name_at};
use mapblock::nodes::IDS;
use tally::lookup::{Lookup, look_up};
use tally::rows::{NAME_AT, ROW_OVERHEAD, put_row};
use wire::order::compare;
use wire::store::{move_back, put_number};

// The counted names of one block: its section of names, the counter of each id, and the places of the counted rows in the order of their names.
#[derive(Clone, Copy, Debug, PartialEq, Eq, Hash)]
struct CountedNames<'a> {
    rows: &'a [u8],
    counts: &'a [u16; IDS],
    places: &'a [usize],
}

// The sum of the counts at places of one name, and the index of the first place behind them.
#[derive(Clone, Copy, Debug, PartialEq, Eq, Hash)]
pub struct Group {
    pub count: u64,
    pub next: usize,
}

// Adds up the counts at the i-th place and at those behind it that have the same name.
fn group_at(names: CountedNames, i: usize) -> Group
    requires { i < length names.places.now }
    ensures { Grouped names.entry.rows.now names.entry.counts.now names.entry.places.now i result }
{
    let CountedNames {
        rows,
        counts,
        places,
    } = names;
    let first = places[i];
    let name = name_at(rows, first);
    let mut count = count_at(rows, counts, first);
    for j in i + 1..places.len() {
        let p = places[j];
        if compare(name, name_at(rows, p)).is_ne() {
            return Group { count, next: j };
        }
        count = count.wrapping_add(count_at(rows, counts, p));
    }
    Group {
        count,
        next: places.len(),
    }
}

// Adds to the count of a name, where it has a row among those from `at` on, and tells where its row stands or would stand.
fn raise_row(buffer: &mut [u8], at: usize, size: usize, name: &[u8], count: u64) -> Lookup
    requires { (at ≤ size) × (size ≤ length buffer.old) }
    ensures { RaisedTo buffer.old buffer.new at size
        (record { name = name.entry.now; count = count }) result }
{
    match look_up(&buffer[at..size], name) {
        Lookup::Present {
            at: p,
            count: before,
        } => {
            let place = at + p;
            let sum = before.wrapping_add(count);
            put_number(buffer, place + NAME_AT + name.len(), sum);
            Lookup::Present {
                at: place,
                count: sum,
            }
        }
        Lookup::Absent(p) => Lookup::Absent(at + p),
    }
}

// Makes the first pass: adds to the counts of names that have a row, and measures the rows of the others.
fn raise(names: CountedNames, buffer: &mut [u8], size: usize) -> Option<(usize, u64)>
    requires { size ≤ length buffer.old }
    ensures { RaisedAs names.entry.rows.now names.entry.counts.now names.entry.places.now buffer.old
        buffer.new size result }
{
    let room = buffer.len() - size;
    let mut at = 0;
    let mut missing = 0;
    let mut rows = 0;
    let mut i = 0;
    while i < names.places.len() {
        let group = group_at(names, i);
        let name = name_at(names.rows, names.places[i]);
        match raise_row(buffer, at, size, name, group.count) {
            Lookup::Present { at: p, .. } => at = p,
            Lookup::Absent(p) => {
                let more = name.len() + ROW_OVERHEAD;
                if room - missing < more {
                    return None;
                }
                at = p;
                missing += more;
                rows += 1;
            }
        }
        i = group.next;
    }
    Some((missing, rows))
}

// Moves n bytes to a place before theirs, from the first on, so that none is lost.
fn move_front(buffer: &mut [u8], from: usize, to: usize, n: usize)
    requires { (to ≤ from) × (from + n ≤ length buffer.old) }
    ensures { buffer.new
        ≡ overwrite to (take n (drop from buffer.old)) buffer.old }
{
    if from == to {
        return;
    }
    for i in 0..n {
        buffer[to + i] = buffer[from + i];
    }
}

// The hole that moves through the rows: where the next row is read, and where it is written.
#[derive(Clone, Copy, Debug, PartialEq, Eq, Hash)]
pub struct Hole {
    pub read: usize,
    pub write: usize,
}

// Moves the n bytes behind the hole to its front, and the hole behind them.
fn pass(buffer: &mut [u8], hole: Hole, n: usize) -> Hole
    requires { (hole.write ≤ hole.read) × (hole.read + n ≤ length buffer.old) }
    ensures bytes { buffer.new
        ≡ overwrite hole.write (take n (drop hole.read buffer.old)) buffer.old }
    ensures hole { result ≡ record { read = hole.read + n; write = hole.write + n } }
{
    let Hole { read, write } = hole;
    move_front(buffer, read, write, n);
    Hole {
        read: read + n,
        write: write + n,
    }
}

// Moves the hole to a name's place, and puts its row there if it has none.
fn fill_row(buffer: &mut [u8], hole: Hole, end: usize, name: &[u8], count: u64) -> Hole
    requires { Inside buffer.old hole end }
    ensures { FilledTo buffer.old buffer.new hole result end
        (record { name = name.entry.now; count = count }) }
{
    match look_up(&buffer[hole.read..end], name) {
        Lookup::Present { at, .. } => pass(buffer, hole, at),
        Lookup::Absent(at) => {
            let passed = pass(buffer, hole, at);
            let more = name.len() + ROW_OVERHEAD;
            if passed.read - passed.write < more {
                return passed;
            }
            put_row(buffer, passed.write, name, count);
            Hole {
                write: passed.write + more,
                ..passed
            }
        }
    }
}

// Makes the second pass: puts the rows that are missing, until the hole is closed, which is as long as they are.
fn fill(names: CountedNames, buffer: &mut [u8], missing: usize, end: usize)
    requires { (missing ≤ end) × (end ≤ length buffer.old) }
    ensures { (G W T : Rows ones)
        → Fills names.entry.rows.now names.entry.counts.now names.entry.places.now buffer.old missing end G W T
        → Filled buffer.old buffer.new end T }
{
    let mut hole = Hole {
        read: missing,
        write: 0,
    };
    let mut i = 0;
    while i < names.places.len() && hole.read != hole.write {
        let group = group_at(names, i);
        let name = name_at(names.rows, names.places[i]);
        hole = fill_row(buffer, hole, end, name, group.count);
        i = group.next;
    }
}

// Makes room for the rows that are missing, and puts them there.
fn spread(names: CountedNames, buffer: &mut [u8], size: usize, missing: usize)
    requires { size + missing ≤ length buffer.old }
    ensures { (G W T : Rows ones)
        → Spreads names.entry.rows.now names.entry.counts.now names.entry.places.now buffer.old size missing G W T
        → Filled buffer.old buffer.new (size + missing) T }
{
    if missing == 0 {
        return;
    }
    move_back(buffer, size, missing);
    fill(names, buffer, missing, size + missing);
}

// Adds the counted names to the running tally. No row is put in before the rows of all new names are known to fit. This is an inner function of the
// meter: what becomes of the tally is promised where the buffer holds the rows that `running` tells, the places are in the order of their names and
// counted, and no sum can pass a u64 (`Absorbs`). Of every state: the buffer keeps its length.
pub fn absorb(
    s: &[u8],
    counts: &[u16; IDS],
    places: &[usize],
    buffer: &mut [u8],
    running: Option<RunningTally>,
) -> Option<RunningTally>
    ensures kept { length buffer.new ≡ length buffer.old }
    ensures told { (R : Rows ones)
        → Absorbs s.now counts.now places.now buffer.old running R
        → Absorbed buffer.old buffer.new result R
        (plus ones (counted_names s.now counts.now places.now) R) }
{
    let RunningTally { size, rows } = running?;
    // A state of another buffer is given back as it is.
    if buffer.len() < size {
        return running;
    }
    let names = CountedNames {
        rows: s,
        counts,
        places,
    };
    let (missing, new_rows) = raise(names, buffer, size)?;
    spread(names, buffer, size, missing);
    Some(RunningTally {
        size: size + missing,
        rows: rows.wrapping_add(new_rows),
    })
}
