// What the reader answers, and what it read, written back.
use crate::blocks::{ROOM, front};
use anowhetele::answer::AnowAnswer;
use anowhetele::blocks::anow_read;
use anowhetele::writing::anow_write;
use block_reader::read::{metadata_section, names_section, objects_section, timers_section};
use mapblock::nodes::NODES;

// Tells whether what is read of a block writes back to the same bytes.
pub(crate) fn writes_back(block: &[u8]) -> bool {
    let mut param0 = [0u16; NODES];
    let mut param1 = [0u8; NODES];
    let mut param2 = [0u8; NODES];
    let mut out = [0u8; ROOM];
    let told = anow_read(block, &mut param0, &mut param1, &mut param2);
    let written = anow_write(
        told.head,
        &param0,
        &param1,
        &param2,
        names_section(block),
        metadata_section(block),
        objects_section(block),
        timers_section(block),
        &mut out,
    );
    front(&out, written.length as usize) == block
}

// Gives what the reader answers.
pub(crate) fn read(block: &[u8]) -> AnowAnswer {
    let mut param0 = [0u16; NODES];
    let mut param1 = [0u8; NODES];
    let mut param2 = [0u8; NODES];
    let told = anow_read(block, &mut param0, &mut param1, &mut param2);
    told.answer
}

// Tells whether an answer has this number and this place.
pub(crate) fn is_answer(answer: AnowAnswer, number: u32, place: usize) -> bool {
    answer.number == number && answer.offset == place as u64
}
