// The name of a node: the very bytes in the caller's block.
ghost use Rattle.std.specs.Prelude.{◌≡◌, ◌+◌};
ghost use Rattle.wire.specs.Ranges.{range_told, bytes_in, InReach, IsSlice};
ghost use Rattle.mapblock.specs.Table.{all_rows};
ghost use Rattle.block_reader.specs.Questions.{name_range_of, node_name_of, told_node_name};

use crate::read::judge;
use mapblock::fault::Refusal;
use mapblock::names::name_row;
use mapblock::nodes::{NODES, id_of};
use wire::ranges::{NO_RANGE, Range, slice_of};

// Finds where the name of an id stands in the block; `names` is where its rows of names are.
fn find(block: &[u8], names: Range, id: usize) -> Range
    requires { InReach (names.start + names.length) }
    ensures { result ≡ name_range_of (all_rows (bytes_in block.now names)) names.start id }
{
    let mut rest = slice_of(block, names);
    let mut at = names.start;
    while let Ok((row, n)) = name_row(rest) {
        if usize::from(row.id) == id {
            return Range {
                start: at + row.name.start,
                length: row.name.length,
            };
        }
        rest = &rest[n..];
        at += n;
    }
    Range {
        start: at,
        length: 0,
    }
}

// Why a node has no name.
#[derive(Clone, Copy, Debug, PartialEq, Eq, Hash)]
pub enum NodeNameError {
    // The index is above 4095.
    NoSuchNode,
    Refused(Refusal),
}

impl From<Refusal> for NodeNameError {
    ghost use Rattle.std.specs.Prelude.{◌≡◌};
    ghost use Rattle.block_reader.specs.declared.node.NodeNameError.TheVariants.{Refused};

    ghost from_gives = { λ w e. e ≡ Refused w };

    fn from(refusal: Refusal) -> NodeNameError {
        NodeNameError::Refused(refusal)
    }
}

// Finds where the name of the node at an index stands in the block.
pub fn locate_node_name(block: &[u8], index: usize) -> Result<Range, NodeNameError>
    ensures { told_node_name result ≡ node_name_of block.now index }
{
    let (scanned, _) = judge(block)?;
    if NODES <= index {
        return Err(NodeNameError::NoSuchNode);
    }
    let id = id_of(scanned.head.version, &block[scanned.lists..], index);
    Ok(find(block, scanned.sections.names, id))
}

// Gives the name itself, as a slice of the block; an empty one when refused.
pub fn node_name(block: &[u8], index: usize) -> &[u8]
    ensures { IsSlice block.entry (range_told (λ p. p) (node_name_of block.now index)) result }
{
    slice_of(block, locate_node_name(block, index).unwrap_or(NO_RANGE))
}
