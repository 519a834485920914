// The tally of one block.
ghost use Rattle.std.specs.Prelude.{◌≡◌, length};
ghost use Rattle.wire.specs.Answer.{Answered};
ghost use Rattle.mapblock.specs.Data.{Block};
ghost use Rattle.meter.specs.Counting.{by_one};
ghost use Rattle.meter.specs.Tallying.{tally_block_of};
ghost use Rattle.sheet.specs.Records.{ScannedAs};
ghost use Rattle.meter.specs.Told.{PutAs, told_block};

use crate::adding::add_block;
use crate::tables::CensusTables;
use block_reader::scan::{Scanned, scan};
use mapblock::fault::Refusal;
use mapblock::nodes::IDS;
use position::key::{Coordinates, split};
use position::part::Part;
use running_tally::state::{RunningTally, empty};
use tally::head::put_head;
use wire::heads::HEAD_LENGTH;

// Why a block is not tallied.
#[derive(Clone, Copy, Debug, PartialEq, Eq, Hash)]
pub enum BlockError {
    BadPart,
    OutOfRange,
    Refused(Refusal),
    NoRoom,
}

impl From<Refusal> for BlockError {
    ghost use Rattle.std.specs.Prelude.{◌≡◌};
    ghost use Rattle.meter.specs.declared.block_tally.BlockError.TheVariants.{Refused};

    ghost from_gives = { λ p r. r ≡ Refused p };

    fn from(refusal: Refusal) -> BlockError {
        BlockError::Refused(refusal)
    }
}

// Writes the tally of a block that was scanned. Where it has no room nothing is written: the rows are measured first.
fn put_tally(
    block: &[u8],
    scanned: Scanned,
    at: Coordinates,
    part: Part,
    out: &mut [u8],
) -> Result<usize, BlockError>
    requires { (b : Block) × ScannedAs block.now scanned b }
    ensures { (b : Block) → ScannedAs block.now scanned b
        → PutAs part at b out.old out.new result }
{
    let mut tables = CensusTables::new();
    if out.len() < HEAD_LENGTH {
        return Err(BlockError::NoRoom);
    }
    let sum = add_block(
        block,
        scanned,
        at,
        part,
        &mut tables,
        &mut out[HEAD_LENGTH..],
        empty(),
    );
    let RunningTally { size, rows } = sum.ok_or(BlockError::NoRoom)?;
    // A u32 holds the number of rows: each is of a name that some of the block's 4,096 nodes bear.
    put_head(out, rows as u32);
    Ok(size + HEAD_LENGTH)
}

// Counts the nodes of the block at a key that stand in a part, name by name.
#[tactic(auto, unfolding(crate::specs::Tallying::tally_block_of, sheet::specs::Placed::placed_at))]
pub fn tally_block(key: i64, block: &[u8], part: Part, out: &mut [u8]) -> Result<usize, BlockError>
    ensures { Answered (told_block result) out.old out.new
        (tally_block_of by_one key block.now part (length out.old)) }
{
    // The table comes first, here and in put_tally, as in the tally of a sheet.
    let mut ids = [0u8; IDS];
    if !part.is_good() {
        return Err(BlockError::BadPart);
    }
    let at = split(key).ok_or(BlockError::OutOfRange)?;
    let (scanned, _) = scan(block, &mut ids)?;
    put_tally(block, scanned, at, part, out)
}
