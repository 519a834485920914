// Rows from the front of a section.
ghost use Rattle.std.specs.Prelude.{◌≡◌};
ghost use Rattle.block_reader.specs.RowQuestions.{name_row_of, metadata_row_of, object_row_of, timer_row_of};
ghost use Rattle.anowhetele.specs.Rows.{handed_name, handed_metadata, handed_object, handed_timer};

use anowhetele::rows::{AnowMetadataRow, AnowNameRow, AnowObjectRow, AnowTimerRow};
use block_reader::row_questions::{metadata_row_of, name_row_of, object_row_of, timer_row_of};

// Tells of the front row of names.
#[unsafe(no_mangle)]
pub extern "C" fn anow_row_name(section: &[u8]) -> AnowNameRow
    ensures { result ≡ handed_name (name_row_of section.now) }
{
    anowhetele::rows::anow_row_name(section)
}

// Tells of the front row of metadata.
#[unsafe(no_mangle)]
pub extern "C" fn anow_row_metadata(version: u8, section: &[u8]) -> AnowMetadataRow
    ensures { result ≡ handed_metadata (metadata_row_of version section.now) }
{
    anowhetele::rows::anow_row_metadata(version, section)
}

// Tells of the front row of static objects.
#[unsafe(no_mangle)]
pub extern "C" fn anow_row_object(section: &[u8]) -> AnowObjectRow
    ensures { result ≡ handed_object (object_row_of section.now) }
{
    anowhetele::rows::anow_row_object(section)
}

// Tells of the front row of timers.
#[unsafe(no_mangle)]
pub extern "C" fn anow_row_timer(section: &[u8]) -> AnowTimerRow
    ensures { result ≡ handed_timer (timer_row_of section.now) }
{
    anowhetele::rows::anow_row_timer(section)
}
