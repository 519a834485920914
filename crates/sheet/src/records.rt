// A sheet's records, one at a time.
ghost use Rattle.std.specs.Prelude.{◌≡◌};
ghost use Rattle.wire.specs.Told.{option_of};
ghost use Rattle.wire.specs.Read.{to_option};
ghost use Rattle.wire.specs.Answer.{map_answer};
ghost use Rattle.mapblock.specs.Table.{free_in};
ghost use Rattle.sheet.specs.Sheet.{frame, rises, judged_in};
ghost use Rattle.sheet.specs.Records.{record_of, told_frame, scanned_at, told_record};

use block_reader::scan::{Scanned, scan};
use mapblock::fault::Refusal;
use mapblock::nodes::IDS;
use position::key::{Coordinates, split};
use wire::fields::{number_at, run_at};

// Where the length of a record's block stands, behind its key, and where the block begins.
pub const LENGTH_AT: usize = 8;

pub const BLOCK_AT: usize = 12;

// Reads the framing of the record at the front.
pub fn frame(s: &[u8]) -> Option<(i64, usize)>
    ensures { told_frame s.now result ≡ to_option (frame.read s.now) }
{
    let key = number_at::<i64>(s, 0)?;
    let length = run_at::<u32>(s, LENGTH_AT).ok()?;
    Some((key, length))
}

// Tells whether a key follows the last one: keys rise as numbers.
fn is_rising(last: Option<i64>, key: i64) -> bool
    ensures { result ≡ rises (option_of last) key }
{
    last.is_none_or(|k| k < key)
}

// What may be wrong with a record, in the order in which it is judged.
#[derive(Clone, Copy, Debug, PartialEq, Eq, Hash)]
pub enum RecordFault {
    OutOfRange,
    NotRising,
    Block(Refusal),
}

// The refusal of a record's block is handed on as it stands.
impl From<Refusal> for RecordFault {
    ghost use Rattle.sheet.specs.declared.records.RecordFault.TheVariants.{Block};

    ghost from_gives = { λ w f. f ≡ Block w };

    fn from(refusal: Refusal) -> RecordFault {
        RecordFault::Block(refusal)
    }
}

// Judges a record against the last key, by the ids that the table has free. The table comes back as it was.
#[tactic(auto, unfolding(crate::specs::Sheet::judged_in))]
pub fn judge_record(
    last: Option<i64>,
    key: i64,
    block: &[u8],
    ids: &mut [u8; IDS],
) -> Result<(Coordinates, Scanned), RecordFault>
    ensures ids { ids.new ≡ ids.old }
    ensures told { told_record result
        ≡ map_answer scanned_at
        (judged_in (free_in ids.old) (option_of last) (record_of key block.now)) }
{
    let at = split(key).ok_or(RecordFault::OutOfRange)?;
    if !is_rising(last, key) {
        return Err(RecordFault::NotRising);
    }
    let (scanned, _) = scan(block, ids)?;
    Ok((at, scanned))
}
