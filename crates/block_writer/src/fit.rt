// Whether the parts fit each other, but for the rows of the sections.
ghost use Rattle.std.specs.Prelude.{◌≡◌};
ghost use Rattle.block_writer.specs.BlockParts.{form_fits, head_fits, all_below, param0_fits, metadata_fits, timers_fit, fits};
ghost use Rattle.block_writer.specs.Parts.{parts_of};

use crate::parts::Parts;
use block_reader::read::are_whole;
use mapblock::head::{Head, LIST_COUNTED, LIST_ZERO, NO_LIGHTING};

// Tells whether the form of the metadata list is one that the version has.
fn form_fits(head: Head) -> bool
    ensures { result ≡ form_fits head }
{
    head.form == LIST_COUNTED || head.form == LIST_ZERO && 23 <= head.version
}

// Tells whether the head has no value that its version does not carry, and that could not be read back.
fn head_fits(head: Head) -> bool
    ensures { result ≡ head_fits head }
{
    (27 <= head.version || head.lighting == NO_LIGHTING)
        && (head.version == 24 || head.timer == 0)
        && form_fits(head)
}

// Tells whether all entries are bytes.
fn all_bytes(entries: &[u16]) -> bool
    ensures { result ≡ all_below 256 entries.now }
{
    entries.iter().all(|&entry| entry < 256)
}

// Tells whether param0 has the version's width: up to version 23 its entries are bytes.
fn param0_fits(version: u8, param0: &[u16]) -> bool
    ensures { result ≡ param0_fits version param0.now }
{
    24 <= version || all_bytes(param0)
}

// Tells whether the metadata list has a count, or there are no rows.
fn metadata_fits(head: Head, metadata: &[u8]) -> bool
    ensures { result ≡ metadata_fits head metadata.now }
{
    head.form == LIST_COUNTED || metadata.is_empty()
}

// Tells whether timers may stand in the block, or there are none.
fn timers_fit(head: Head, timers: &[u8]) -> bool
    ensures { result ≡ timers_fit head timers.now }
{
    25 <= head.version || head.version == 24 && head.timer == 1 || timers.is_empty()
}

// Tells whether head, lists, metadata and timers fit together.
pub(crate) fn fit(parts: &Parts) -> bool
    ensures { result ≡ fits (parts_of parts.now) }
{
    are_whole(parts.param0.len(), parts.param1.len(), parts.param2.len())
        && head_fits(parts.head)
        && param0_fits(parts.head.version, parts.param0)
        && metadata_fits(parts.head, parts.metadata)
        && timers_fit(parts.head, parts.timers)
}
