// Document 02, item 2: a block for each field that is fixed, in which the field has another value; the number is the field's own, and the place
// is the field's first byte.
use crate::blocks::{AIR, ALL_ZERO, ROOM, head, put_block};
use crate::looking::{METADATA_29, put_rows};
use crate::printing::{Answered, verdict};
use crate::reading::{is_answer, read};
use std::io;

// A field that is fixed, the version of the block, the byte that is changed and its other value; and the number and the place that are expected.
type Change = (&'static str, u8, usize, u8, u32, usize);

// Those up to the metadata list. Its version is a u16 in version 22, which is told at its first byte whichever of the two is wrong.
const UP_TO_METADATA: [Change; 9] = [
    ("content width", 23, 2, 2, 31, 2),
    ("content width", 24, 2, 1, 31, 2),
    ("params width", 22, 3, 1, 32, 3),
    ("metadata list version 0x0101", 22, 12_292, 1, 33, 12_292),
    ("metadata list version 0x0002", 22, 12_293, 2, 33, 12_292),
    ("metadata list version 0", 22, 12_293, 0, 33, 12_292),
    ("metadata list version 2", 27, 16_390, 2, 33, 16_390),
    ("metadata list version 1", 28, 16_390, 1, 33, 16_390),
    ("metadata list version 3", 29, 16_404, 3, 33, 16_404),
];

// Those behind it.
const BEHIND_METADATA: [Change; 6] = [
    ("timer byte 1", 23, 12_295, 1, 35, 12_295),
    ("timer byte 2", 24, 16_391, 2, 35, 16_391),
    ("static object version", 22, 12_296, 1, 36, 12_296),
    ("mapping version", 22, 12_303, 1, 37, 12_303),
    ("mapping version", 29, 8, 1, 37, 8),
    ("timer row length", 25, 16_408, 9, 38, 16_408),
];

// Shows what the reader says of a block once a byte of it is changed, beside what is expected.
fn changed_line(rt: &impl Print, block: &mut [u8], change: Change) -> io::Result<()> {
    let (field, version, byte, value, number, place) = change;
    if let Some(b) = block.get_mut(byte) {
        *b = value;
    }
    let answer = Answered(read(block));
    let told = verdict(is_answer(answer.0, number, place));
    println!(rt; "{field}, version {version}, byte {byte}: {answer}; {told}")
}

// Shows it of the shortest block of a version.
fn changed(rt: &impl Print, change: Change) -> io::Result<()> {
    let (_, version, ..) = change;
    let mut block = [0u8; ROOM];
    let n = put_block(head(version, 0, 0), ALL_ZERO, &AIR, &mut block);
    changed_line(rt, &mut block[..n], change)
}

// Shows it of a block that has a variable, since no shortest block has a private byte.
fn private_byte(rt: &impl Print) -> io::Result<()> {
    let mut block = [0u8; ROOM];
    let n = put_rows(29, &METADATA_29, b"", &mut block);
    let change = ("private byte", 29, 16_434, 2, 34, 16_434);
    changed_line(rt, &mut block[..n], change)
}

// Shows each field that is fixed.
#[inline(never)]
pub(crate) fn run(rt: &impl Print) -> io::Result<()> {
    println!(rt; "\nFields that are fixed, with another value")?;
    for change in UP_TO_METADATA {
        changed(rt, change)?;
    }
    private_byte(rt)?;
    for change in BEHIND_METADATA {
        changed(rt, change)?;
    }
    Ok(())
}
