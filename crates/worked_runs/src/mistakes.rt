// Mistakes seen before, under document 01's words for them: each with runs that it would get wrong.
use crate::blocks::{AIR, ALL_ZERO, Nodes, ROOM, head, put_block};
use crate::printing::{print_tally, verdict};
use crate::sheets::tally_two;
use anowhetele::metering::anow_tally_block;
use anowhetele::places::{AnowCoordinates, anow_key_split};
use mapblock::inventory::inventory;
use position::lot::Lot;
use position::span::Span;
use std::{fmt, io};

// Shows that a negative key is not rounded toward zero.
fn negative_key(rt: &impl Print) -> io::Result<()> {
    println!(rt; "\nA remainder that rounds toward zero on negative keys")?;
    let AnowCoordinates { number, x, y, z } = anow_key_split(-2049);
    let is_right = number == 0 && x == 2047 && y == -1 && z == 0;
    println!(rt; "key -2049: x {x}, y {y}, z {z}; {}", verdict(is_right))
}

// Shows that an inventory does not end inside a longer line. One that does not end counts as no bytes.
fn longer_line(rt: &impl Print) -> io::Result<()> {
    println!(rt; "\nEnding an inventory at EndInventory inside a longer line")?;
    let n = inventory(b"EndInventoryList\nEndInventory\n").unwrap_or(0);
    let told = verdict(n == 30);
    println!(rt; "lines EndInventoryList and EndInventory: {n} bytes; {told}")
}

// Shows the line of a block's tally, in the whole world.
fn block_line<D: fmt::Display + Drop>(
    rt: &impl Print,
    asked: D,
    block: &[u8],
    span: Span,
    expected: &[u8],
) -> io::Result<()> {
    let mut out = [0u8; 256];
    let answer = anow_tally_block(0, block, Lot::WORLD, span, &mut out);
    print_tally(rt, asked, answer, &out, expected)
}

// Shows that counts are added by name across the blocks of a sheet.
fn names_of_two(rt: &impl Print) -> io::Result<()> {
    let mut out = [0u8; 256];
    let answer = tally_two(0, 1, b"\x00\x00\x00\x05stone", &mut out);
    print_tally(
        rt,
        "id 0 air in one block of a sheet, stone in the next",
        answer,
        &out,
        b"TLY 1 rows 2\n4096 air\n4096 stone\n",
    )
}

// Shows that counts are added by name across the ids of a block.
fn names_of_one(rt: &impl Print) -> io::Result<()> {
    let mut room = [0u8; ROOM];
    let nodes = Nodes {
        param0: 0,
        first_param0: 1,
        first_param2: 0,
    };
    let names = b"\x00\x00\x00\x03air\x00\x01\x00\x03air";
    let n = put_block(head(29, 0, 0), nodes, names, &mut room);
    block_line(
        rt,
        "ids 0 and 1 of a block both air",
        &room[..n],
        Span::ALL_TIME,
        b"TLY 1 rows 1\n4096 air\n",
    )
}

// Shows that version 23 takes an id from param0 and param2.
fn ids_of_23(rt: &impl Print) -> io::Result<()> {
    let mut room = [0u8; ROOM];
    let nodes = Nodes {
        param0: 128,
        first_param0: 128,
        first_param2: 16,
    };
    let names = b"\x00\x80\x00\x03air\x08\x00\x00\x05stone\x08\x01\x00\x04dirt";
    let n = put_block(head(23, 0, 0), nodes, names, &mut room);
    println!(rt; "\nIn version 23, using param0 alone as the id")?;
    block_line(
        rt,
        "param0 128, param2 16 in one node and 0 in the others, ids 128 air, 2048 stone, 2049 dirt",
        &room[..n],
        Span::ALL_TIME,
        b"TLY 1 rows 2\n1 dirt\n4095 stone\n",
    )
}

// Shows that keys are compared as numbers: two blocks of air in a sheet, whose keys must rise.
fn keys(rt: &impl Print) -> io::Result<()> {
    let both = b"TLY 1 rows 1\n8192 air\n";
    let refused = b"refused 15 record 1\n";
    let cases: [(i64, i64, &[u8]); 4] = [
        (9, 10, both),
        (10, 9, refused),
        (-10, -9, both),
        (-9, -10, refused),
    ];
    for (key, next, expected) in cases {
        let mut out = [0u8; 256];
        let answer = tally_two(key, next, &AIR, &mut out);
        print_tally(
            rt,
            format_args!("keys {key} and {next}"),
            answer,
            &out,
            expected,
        )?;
    }
    Ok(())
}

// Shows that seconds are compared as numbers: a block of air, saved within a span or not.
fn seconds(rt: &impl Print) -> io::Result<()> {
    let one = b"TLY 1 rows 1\n4096 air\n";
    let none = b"TLY 1 rows 0\n";
    let cases: [(u32, u32, u32, &[u8]); 4] = [
        (999_998, 0, 1_000_000, one),
        (999_998, 1_000_000, 2_000_000, none),
        (1_000_000, 0, 1_000_000, none),
        (1_000_000, 1_000_000, 2_000_000, one),
    ];
    for (saved, from, until, expected) in cases {
        let mut room = [0u8; ROOM];
        let n = put_block(head(29, 0, saved), ALL_ZERO, &AIR, &mut room);
        block_line(
            rt,
            format_args!("saved at {saved}, span {from} to {until}"),
            &room[..n],
            Span { from, until },
            expected,
        )?;
    }
    Ok(())
}

// Shows all of them.
#[inline(never)]
pub(crate) fn run(rt: &impl Print) -> io::Result<()> {
    negative_key(rt)?;
    longer_line(rt)?;
    println!(rt; "\nAdding counts by id across blocks; forgetting that two ids may share a name")?;
    names_of_two(rt)?;
    names_of_one(rt)?;
    ids_of_23(rt)?;
    println!(rt; "\nComparing keys or seconds as text")?;
    keys(rt)?;
    seconds(rt)
}
