// Rows from the front of a section.
ghost use Rattle.std.specs.Prelude.{◌≡◌, ⊤, Err};
ghost use Rattle.block_reader.specs.AskedRows.{told_row_answer};
ghost use Rattle.block_reader.specs.RowQuestions.{name_row_of, metadata_row_of, object_row_of, timer_row_of};
ghost use Rattle.anowhetele.specs.Answers.{handed, nothing_written};
ghost use Rattle.anowhetele.specs.Rows.{no_name, no_metadata, no_object, no_timer, handed_name, handed_metadata, handed_object, handed_timer};

use crate::answer::{AnowAnswer, done, plain};
use crate::numbers::NO_SUCH;
use block_reader::row_questions::{
    RowError, metadata_row_of, name_row_of, object_row_of, timer_row_of,
};
use wire::ranges::{NO_RANGE, Range};

impl From<RowError> for AnowAnswer {
    ghost from_gives = { λ e a. a ≡ handed (nothing_written (told_row_answer {A = ⊤} (Err e))) };

    fn from(error: RowError) -> AnowAnswer {
        match error {
            RowError::NoSuchRow => plain(NO_SUCH),
            RowError::Refused(refusal) => refusal.into(),
        }
    }
}

// ---- names
#[repr(C)]
#[derive(Clone, Copy, Debug, PartialEq, Eq, Hash)]
pub struct AnowNameRow {
    pub answer: AnowAnswer,
    pub id: u32,
    pub name: Range,
}

// Makes what is handed of a row of names that is refused.
fn no_name(answer: AnowAnswer) -> AnowNameRow
    ensures { result ≡ no_name answer }
{
    AnowNameRow {
        answer,
        id: 0,
        name: NO_RANGE,
    }
}

// Tells of the front row of names.
pub fn anow_row_name(section: &[u8]) -> AnowNameRow
    ensures { result ≡ handed_name (name_row_of section.now) }
{
    match name_row_of(section) {
        Ok((row, length)) => AnowNameRow {
            answer: done(length),
            id: u32::from(row.id),
            name: row.name,
        },
        Err(error) => no_name(error.into()),
    }
}

// ---- metadata
#[repr(C)]
#[derive(Clone, Copy, Debug, PartialEq, Eq, Hash)]
pub struct AnowMetadataRow {
    pub answer: AnowAnswer,
    pub position: u32,
    pub kind: u32,
    pub variables: u32,
    pub content: Range,
    pub rows: Range,
    pub inventory: Range,
}

// Makes what is handed of a row of metadata that is refused.
fn no_metadata(answer: AnowAnswer) -> AnowMetadataRow
    ensures { result ≡ no_metadata answer }
{
    AnowMetadataRow {
        answer,
        position: 0,
        kind: 0,
        variables: 0,
        content: NO_RANGE,
        rows: NO_RANGE,
        inventory: NO_RANGE,
    }
}

// Tells of the front row of metadata.
pub fn anow_row_metadata(version: u8, section: &[u8]) -> AnowMetadataRow
    ensures { result ≡ handed_metadata (metadata_row_of version section.now) }
{
    match metadata_row_of(version, section) {
        Ok((row, length)) => AnowMetadataRow {
            answer: done(length),
            position: u32::from(row.position),
            kind: u32::from(row.kind),
            variables: row.variables,
            content: row.content,
            rows: row.rows,
            inventory: row.inventory,
        },
        Err(error) => no_metadata(error.into()),
    }
}

// ---- static objects
#[repr(C)]
#[derive(Clone, Copy, Debug, PartialEq, Eq, Hash)]
pub struct AnowObjectRow {
    pub answer: AnowAnswer,
    pub kind: u32,
    pub x: i32,
    pub y: i32,
    pub z: i32,
    pub content: Range,
}

// Makes what is handed of a static object that is refused.
fn no_object(answer: AnowAnswer) -> AnowObjectRow
    ensures { result ≡ no_object answer }
{
    AnowObjectRow {
        answer,
        kind: 0,
        x: 0,
        y: 0,
        z: 0,
        content: NO_RANGE,
    }
}

// Tells of the front row of static objects.
pub fn anow_row_object(section: &[u8]) -> AnowObjectRow
    ensures { result ≡ handed_object (object_row_of section.now) }
{
    match object_row_of(section) {
        Ok((row, length)) => AnowObjectRow {
            answer: done(length),
            kind: u32::from(row.kind),
            x: row.x,
            y: row.y,
            z: row.z,
            content: row.content,
        },
        Err(error) => no_object(error.into()),
    }
}

// ---- timers
#[repr(C)]
#[derive(Clone, Copy, Debug, PartialEq, Eq, Hash)]
pub struct AnowTimerRow {
    pub answer: AnowAnswer,
    pub position: u32,
    pub timeout: i32,
    pub elapsed: i32,
}

// Makes what is handed of a timer that is refused.
fn no_timer(answer: AnowAnswer) -> AnowTimerRow
    ensures { result ≡ no_timer answer }
{
    AnowTimerRow {
        answer,
        position: 0,
        timeout: 0,
        elapsed: 0,
    }
}

// Tells of the front row of timers.
pub fn anow_row_timer(section: &[u8]) -> AnowTimerRow
    ensures { result ≡ handed_timer (timer_row_of section.now) }
{
    match timer_row_of(section) {
        Ok((row, length)) => AnowTimerRow {
            answer: done(length),
            position: u32::from(row.position),
            timeout: row.timeout,
            elapsed: row.elapsed,
        },
        Err(error) => no_timer(error.into()),
    }
}
