// What a call comes back with.
ghost use Rattle.std.specs.Prelude.{◌≡◌};
ghost use Rattle.mapblock.specs.Numbers.{refusal_number};
ghost use Rattle.sheet.specs.Records.{fault_number, fault_offset};
ghost use Rattle.anowhetele.specs.Answers.{done_with, refused_with};

use crate::numbers::{DONE, OUT_OF_RANGE, SHEET_MALFORMED};
use mapblock::fault::{Refusal, refusal_number};
use sheet::records::RecordFault;

#[repr(C)]
#[derive(Clone, Copy, Debug, PartialEq, Eq, Hash)]
pub struct AnowAnswer {
    pub number: u32,
    // The record of a sheet.
    pub index: u32,
    pub offset: u64,
    // The result's, on 0.
    pub length: u64,
}

// Makes the answer of a call that is done.
pub(crate) fn done(length: usize) -> AnowAnswer
    ensures { result ≡ done_with length }
{
    AnowAnswer {
        length: length as u64,
        ..plain(DONE)
    }
}

// Makes an answer that has neither record nor offset nor length: a refusal, where the number is not 0.
pub(crate) fn plain(number: u32) -> AnowAnswer
    ensures { result ≡ refused_with number 0 0 }
{
    AnowAnswer {
        number,
        index: 0,
        offset: 0,
        length: 0,
    }
}

// Makes a refusal in a sheet: that of the record at an index.
pub(crate) fn in_record(number: u32, index: u32) -> AnowAnswer
    ensures { result ≡ refused_with number index 0 }
{
    AnowAnswer {
        index,
        ..plain(number)
    }
}

// A fault in a block or a row is refused at its place.
impl From<Refusal> for AnowAnswer {
    ghost from_gives = { λ r a. a ≡ refused_with (refusal_number r.fault) 0 r.offset };

    fn from(refusal: Refusal) -> AnowAnswer {
        AnowAnswer {
            offset: refusal.offset as u64,
            ..plain(refusal_number(refusal.fault))
        }
    }
}

// Makes the refusal of the record at an index.
pub(crate) fn record_refused(fault: RecordFault, index: u32) -> AnowAnswer
    ensures { result ≡ refused_with (fault_number fault) index (fault_offset fault) }
{
    match fault {
        RecordFault::OutOfRange => in_record(OUT_OF_RANGE, index),
        RecordFault::NotRising => in_record(SHEET_MALFORMED, index),
        RecordFault::Block(refusal) => AnowAnswer {
            index,
            ..AnowAnswer::from(refusal)
        },
    }
}
