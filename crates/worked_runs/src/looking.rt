// Looking at a block: its sections, their rows from the front and the names of its nodes, each handed back as a slice of the block; the rows of
// its tally; and where its nodes stand. What is handed back is printed, and held to the bytes that the block was made of.
ghost use Rattle.std.specs.Prelude.{◌≤◌, length};

use crate::blocks::{ROOM, front, head};
use crate::printing::{Hex, OneLine, verdict};
use anowhetele::metering::anow_tally_block;
use block_reader::node::node_name;
use block_reader::read::{metadata_section, names_section, objects_section, timers_section};
use block_reader::row_questions::{
    behind_metadata_row, behind_name_row, behind_object_row, behind_timer_row, metadata_content_of,
    metadata_inventory_of, metadata_variables_of, name_of, object_content_of,
};
use block_writer::write::write;
use mapblock::nodes::NODES;
use position::key::Coordinates;
use position::lot::Lot;
use position::node::{NodeCoordinatesError, node_coordinates};
use position::span::Span;
use std::io;
use tally::check::rows_of;
use tally::rows::{behind_row, row_of};

// Two names, a static object and a timer.
const NAMES: [u8; 16] = *b"\x00\x00\x00\x03air\x00\x01\x00\x05stone";

const OBJECTS: [u8; 19] = *b"\x07\x00\x00\x00\x01\xff\xff\xff\xfe\x00\x00\x00\x03\x00\x04lamp";

const TIMERS: [u8; 10] = *b"\x00\x05\x00\x00\x03\xe8\xff\xff\xff\xff";

// A row of metadata in version 22, and one in 29: a variable that is private, and an inventory of two lines.
const METADATA_22: [u8; 11] = *b"\x00\x05\x00\x02\x00\x05chest";

pub(crate) const METADATA_29: [u8; 44] =
    *b"\x00\x05\x00\x00\x00\x01\x00\x04text\x00\x00\x00\x02hi\x01List main 0\nEndInventory\n";

// Writes a block whose first node is of id 1 and whose others are of id 0, and tells its length; 0 where the writer refuses it.
pub(crate) fn put_rows(version: u8, metadata: &[u8], timers: &[u8], out: &mut [u8]) -> usize
    ensures { result ≤ length out.old }
{
    let mut param0 = [0u16; NODES];
    let bytes = [0u8; NODES];
    param0[0] = 1;
    write(
        head(version, 0, 0),
        &param0,
        &bytes,
        &bytes,
        &NAMES,
        metadata,
        &OBJECTS,
        timers,
        out,
    )
    .unwrap_or(0)
}

// Shows a slice's bytes in hexadecimal digits, beside what is expected.
fn bytes_line(rt: &impl Print, asked: &str, slice: &[u8], expected: &[u8]) -> io::Result<()> {
    let told = verdict(slice == expected);
    println!(rt; "{asked}:{}; {told}", Hex(slice))
}

// Shows a slice that is text, beside what is expected.
fn text_line(rt: &impl Print, asked: &str, slice: &[u8], expected: &[u8]) -> io::Result<()> {
    let told = verdict(slice == expected);
    println!(rt; "  {asked}: {}; {told}", OneLine(slice))
}

// Shows the rows of names, and the slices handed back of them.
fn names(rt: &impl Print, block: &[u8]) -> io::Result<()> {
    let rows = names_section(block);
    let rest = behind_name_row(rows);
    let last = behind_name_row(rest);
    bytes_line(rt, "names", rows, &NAMES)?;
    text_line(rt, "front row", name_of(rows), b"air")?;
    text_line(rt, "behind it", name_of(rest), b"stone")?;
    text_line(rt, "behind the last", name_of(last), b"")?;
    text_line(rt, "of node 0", node_name(block, 0), b"stone")?;
    text_line(rt, "of node 4095", node_name(block, 4095), b"air")?;
    text_line(rt, "of node 4096", node_name(block, 4096), b"")
}

// Shows the rows of metadata from version 23 on.
fn metadata(rt: &impl Print, block: &[u8]) -> io::Result<()> {
    let rows = metadata_section(block);
    let variables = metadata_variables_of(29, rows);
    let inventory = metadata_inventory_of(29, rows);
    let variable = b"\x00\x04text\x00\x00\x00\x02hi\x01";
    let lines = b"List main 0\nEndInventory\n";
    bytes_line(rt, "metadata", rows, &METADATA_29)?;
    text_line(rt, "content", metadata_content_of(29, rows), b"")?;
    bytes_line(rt, "  variables", variables, variable)?;
    text_line(rt, "inventory", inventory, lines)?;
    text_line(rt, "behind it", behind_metadata_row(29, rows), b"")
}

// Shows a row of metadata of version 22.
fn metadata_of_22(rt: &impl Print, block: &[u8]) -> io::Result<()> {
    let rows = metadata_section(block);
    let timers = timers_section(block);
    bytes_line(rt, "metadata in version 22", rows, &METADATA_22)?;
    text_line(rt, "content", metadata_content_of(22, rows), b"chest")?;
    text_line(rt, "variables", metadata_variables_of(22, rows), b"")?;
    text_line(rt, "inventory", metadata_inventory_of(22, rows), b"")?;
    text_line(rt, "behind it", behind_metadata_row(22, rows), b"")?;
    text_line(rt, "timers, which 22 has not", timers, b"")
}

// Shows the rows of static objects and of timers.
fn objects_and_timers(rt: &impl Print, block: &[u8]) -> io::Result<()> {
    let objects = objects_section(block);
    let timers = timers_section(block);
    bytes_line(rt, "static objects", objects, &OBJECTS)?;
    text_line(rt, "content", object_content_of(objects), b"lamp")?;
    text_line(rt, "behind it", behind_object_row(objects), b"")?;
    bytes_line(rt, "timers", timers, &TIMERS)?;
    text_line(rt, "behind it", behind_timer_row(timers), b"")
}

// Shows the front row of a tally beside what is expected. Where there is none, its count is 0.
fn row_line(rt: &impl Print, asked: &str, rows: &[u8], name: &[u8], count: u64) -> io::Result<()> {
    let told = tally::rows::name_of(rows);
    let n = row_of(rows).map_or(0, |(n, _)| n);
    let is_right = told == name && n == count;
    println!(rt; "{asked}{} {n}; {}", OneLine(told), verdict(is_right))
}

// Shows the rows of a tally from the front.
fn tally_rows(rt: &impl Print, block: &[u8]) -> io::Result<()> {
    let mut out = [0u8; 256];
    let answer = anow_tally_block(0, block, Lot::WORLD, Span::ALL_TIME, &mut out);
    let rows = rows_of(front(&out, answer.length as usize));
    let rest = behind_row(rows);
    row_line(rt, "tally: front row ", rows, b"air", 4095)?;
    row_line(rt, "  behind it ", rest, b"stone", 1)?;
    row_line(rt, "  behind the last", behind_row(rest), b"", 0)
}

// Shows where the node at an index of the block at (-1, 0, 0) stands, or the number of its refusal.
fn node_line(
    rt: &impl Print,
    asked: &str,
    index: usize,
    expected: (i32, i32, i32),
) -> io::Result<()> {
    match node_coordinates(Coordinates { x: -1, y: 0, z: 0 }, index) {
        Ok(Coordinates { x, y, z }) => {
            let told = verdict((x, y, z) == expected);
            println!(rt; "{asked}: x {x}, y {y}, z {z}; {told}")
        }
        Err(NodeCoordinatesError::OutOfRange) => println!(rt; "{asked}: 9"),
        Err(NodeCoordinatesError::NoSuchNode) => println!(rt; "{asked}: 16"),
    }
}

// Gives the word for whether something lies in a lot or a span, or the number of the refusal of one that is bad.
fn where_it_lies(is_inside: Option<bool>) -> &'static str {
    match is_inside {
        None => "10",
        Some(true) => "inside",
        Some(false) => "outside",
    }
}

// Shows whether a node stands in a lot that is made of the ends of one axis, or that the lot is bad.
fn lots(rt: &impl Print) -> io::Result<()> {
    let cases = [
        ("x -1 in a lot from -16 to -1", -16, -1, -1),
        ("x 0 in it", -16, -1, 0),
        ("a lot from -1 to -16", -1, -16, -1),
        ("a lot from -32769 on", -32769, -1, -1),
    ];
    for (asked, least, greatest, x) in cases {
        let lot = Lot::new(least, 0, 0, greatest, 15, 15);
        let is_inside = lot.map(|lot| lot.has(x, 15, 15));
        println!(rt; "{asked}: {}", where_it_lies(is_inside))?;
    }
    Ok(())
}

// Shows whether a second lies in a span, or that the span is bad.
fn spans(rt: &impl Print) -> io::Result<()> {
    let cases = [
        ("999999 in the span 0 to 1000000", 0, 1_000_000, 999_999),
        ("1000000 in it", 0, 1_000_000, 1_000_000),
        ("a span from 2 to 1", 2, 1, 1),
    ];
    for (asked, from, until, second) in cases {
        let is_inside = Span::new(from, until).map(|span| span.has(second));
        println!(rt; "{asked}: {}", where_it_lies(is_inside))?;
    }
    Ok(())
}

// Shows nodes, lots and spans.
fn positions(rt: &impl Print) -> io::Result<()> {
    println!(rt; "\nNodes, lots and spans")?;
    node_line(rt, "node 0 of the block at (-1, 0, 0)", 0, (-16, 0, 0))?;
    node_line(rt, "node 273", 273, (-15, 1, 1))?;
    node_line(rt, "node 4095", 4095, (-1, 15, 15))?;
    node_line(rt, "node 4096", 4096, (0, 0, 0))?;
    lots(rt)?;
    spans(rt)
}

// Shows all of it.
#[inline(never)]
pub(crate) fn run(rt: &impl Print) -> io::Result<()> {
    let mut room = [0u8; ROOM];
    println!(rt; "\nA block of version 29 with rows in every section")?;
    let n = put_rows(29, &METADATA_29, &TIMERS, &mut room);
    names(rt, &room[..n])?;
    metadata(rt, &room[..n])?;
    objects_and_timers(rt, &room[..n])?;
    tally_rows(rt, &room[..n])?;
    let m = put_rows(22, &METADATA_22, b"", &mut room);
    metadata_of_22(rt, &room[..m])?;
    positions(rt)
}
