// The shortest all-air blocks, with each form of the metadata list, and their full tally.
use crate::blocks::{AIR, ALL_ZERO, ROOM, front, head_with, put_block};
use crate::printing::{Answered, Hex, verdict};
use crate::reading::{is_answer, read, writes_back};
use anowhetele::metering::anow_tally_block;
use mapblock::head::{Head, LIST_COUNTED, LIST_ZERO};
use position::lot::Lot;
use position::span::Span;
use std::{fmt, io};

// The tally of each: 4,096 nodes of air.
const FULL_TALLY: &[u8] =
    b"\x54\x4C\x59\x00\x01\x00\x00\x00\x01\x00\x03\x61\x69\x72\x00\x00\x00\x00\x00\x00\x10\x00";

// Those whose metadata list has a count: the version, the timer byte that version 24 alone has, the length, and where the last field starts.
// Up to version 24 the last field is the name, three bytes; from 25 it is the number of timers, two.
const COUNTED: [(u8, u8, usize, usize); 9] = [
    (22, 0, 12_313, 12_310),
    (23, 0, 12_313, 12_310),
    (24, 0, 16_409, 16_406),
    (24, 1, 16_411, 16_408),
    (25, 0, 16_411, 16_409),
    (26, 0, 16_411, 16_409),
    (27, 0, 16_413, 16_411),
    (28, 0, 16_413, 16_411),
    (29, 0, 16_413, 16_411),
];

// Those in which a single 0 stands for the list: two bytes less.
const SINGLE_ZERO: [(u8, u8, usize, usize); 8] = [
    (23, 0, 12_311, 12_308),
    (24, 0, 16_407, 16_404),
    (24, 1, 16_409, 16_406),
    (25, 0, 16_409, 16_407),
    (26, 0, 16_409, 16_407),
    (27, 0, 16_411, 16_409),
    (28, 0, 16_411, 16_409),
    (29, 0, 16_411, 16_409),
];

// The version of a head, with the timer byte that version 24 alone has and the form of the metadata list.
#[derive(Clone, Copy, Debug, PartialEq, Eq, Hash)]
struct Version(Head);

impl fmt::Display for Version {
    fn fmt<W: fmt::Write>(&self, f: &mut fmt::Formatter<W>) -> fmt::Result {
        let Head {
            version,
            timer,
            form,
            ..
        } = self.0;
        write!(f, "version {version}")?;
        if version == 24 {
            write!(f, ", timer byte {timer}")?;
        }
        if form == LIST_ZERO {
            write!(f, ", a single 0 for the metadata list")?;
        }
        Ok(())
    }
}

// Shows the tally of the whole world and all time, and that it has no room in one byte less.
fn full_tally(rt: &impl Print, block: &[u8]) -> io::Result<()> {
    let mut out = [0u8; 64];
    let mut small = [0u8; 21];
    let told = anow_tally_block(0, block, Lot::WORLD, Span::ALL_TIME, &mut out);
    let refused = anow_tally_block(0, block, Lot::WORLD, Span::ALL_TIME, &mut small);
    let tally = front(&out, told.length as usize);
    let number = refused.number;
    let told = verdict(tally == FULL_TALLY && is_answer(refused, 11, 0));
    println!(rt; "  full tally:{}; room of 21: {number}; {told}", Hex(tally))
}

// Shows the shortest block that has a head: its length, and the start of its last field, which one byte less cuts short.
fn shortest(rt: &impl Print, head: Head, length: usize, last: usize) -> io::Result<()> {
    let mut block = [0u8; ROOM];
    let n = put_block(head, ALL_ZERO, &AIR, &mut block);
    let written = &block[..n];
    let whole = read(front(&block, length));
    let less = read(front(&block, length.saturating_sub(1)));
    let more = read(front(&block, length.saturating_add(1)));
    let is_same = writes_back(written);
    let is_right = n == length
        && is_same
        && is_answer(whole, 0, 0)
        && is_answer(less, 1, last)
        && is_answer(more, 7, length);
    print!(rt; "{}: {n} bytes; read: {}", Version(head), Answered(whole))?;
    if is_same {
        print!(rt; "; written back: the same")?;
    }
    print!(rt; "; one byte less: {}", Answered(less))?;
    print!(rt; "; one byte more: {}", Answered(more))?;
    println!(rt; "; {}", verdict(is_right))?;
    full_tally(rt, written)
}

// Shows the shortest blocks, each read, written back and tallied, and what the reader says of no bytes.
#[inline(never)]
pub(crate) fn run(rt: &impl Print) -> io::Result<()> {
    println!(rt; "Shortest all-air blocks")?;
    for (version, timer, length, last) in COUNTED {
        let head = head_with(version, timer, LIST_COUNTED, 0);
        shortest(rt, head, length, last)?;
    }
    for (version, timer, length, last) in SINGLE_ZERO {
        let head = head_with(version, timer, LIST_ZERO, 0);
        shortest(rt, head, length, last)?;
    }
    let answer = read(b"");
    let told = verdict(is_answer(answer, 1, 0));
    println!(rt; "no bytes: {}; {told}", Answered(answer))
}
