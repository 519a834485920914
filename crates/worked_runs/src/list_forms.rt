// Document 02, item 3: the two forms of a metadata list of none, where the section stands, and the writer's 12.
use crate::blocks::{AIR, ALL_ZERO, ROOM, head_with, put_block};
use crate::looking::METADATA_29;
use crate::printing::verdict;
use crate::reading::is_answer;
use anowhetele::blocks::anow_sections;
use anowhetele::writing::anow_write;
use mapblock::head::{LIST_COUNTED, LIST_ZERO};
use mapblock::nodes::NODES;
use std::io;
use wire::ranges::Range;

// Shows the form that the head of a block has, and where its metadata section stands: it is empty, behind what stands before the rows.
fn section_line(rt: &impl Print, version: u8, form: u8, start: usize) -> io::Result<()> {
    let mut block = [0u8; ROOM];
    let n = put_block(head_with(version, 0, form, 0), ALL_ZERO, &AIR, &mut block);
    let told = anow_sections(&block[..n]);
    let read = told.head.form;
    let Range { start: at, length } = told.sections.metadata;
    let is_right = read == form && at == start && length == 0;
    print!(rt; "version {version}: form {read}, metadata section of ")?;
    println!(rt; "{length} bytes at {at}; {}", verdict(is_right))
}

// Shows what the writer answers to a form of the list, with these rows of metadata.
fn written_line(
    rt: &impl Print,
    version: u8,
    form: u8,
    metadata: &[u8],
    expected: u32,
) -> io::Result<()> {
    let param0 = [0u16; NODES];
    let bytes = [0u8; NODES];
    let mut out = [0u8; ROOM];
    let answer = anow_write(
        head_with(version, 0, form, 0),
        &param0,
        &bytes,
        &bytes,
        &AIR,
        metadata,
        b"",
        b"",
        &mut out,
    );
    let rows = if metadata.is_empty() {
        "no rows"
    } else {
        "a row"
    };
    let number = answer.number;
    let told = verdict(is_answer(answer, expected, 0));
    println!(rt; "written, version {version}, form {form}, {rows}: {number}; {told}")
}

// Shows both forms, and each 12.
#[inline(never)]
pub(crate) fn run(rt: &impl Print) -> io::Result<()> {
    println!(rt; "\nThe two forms of a metadata list of none")?;
    section_line(rt, 22, LIST_COUNTED, 12_296)?;
    section_line(rt, 23, LIST_COUNTED, 12_295)?;
    section_line(rt, 23, LIST_ZERO, 12_293)?;
    section_line(rt, 29, LIST_COUNTED, 16_407)?;
    section_line(rt, 29, LIST_ZERO, 16_405)?;
    written_line(rt, 29, LIST_ZERO, b"", 0)?;
    written_line(rt, 29, LIST_ZERO, &METADATA_29, 12)?;
    written_line(rt, 22, LIST_ZERO, b"", 12)?;
    written_line(rt, 29, 2, b"", 12)?;
    written_line(rt, 29, LIST_COUNTED, &METADATA_29, 0)
}
