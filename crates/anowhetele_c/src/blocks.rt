// Blocks: the reader, the sections, the name of a node.
ghost use Rattle.std.specs.Prelude.{◌≡◌};
ghost use Rattle.block_reader.specs.Questions.{lists, sections_of, node_name_of};
ghost use Rattle.anowhetele.specs.Blocks.{handed_block, HandedRead, handed_node};

use anowhetele::blocks::{AnowBlock, AnowNode};

// Reads a block into the three lent lists, and tells its head and where its sections are.
#[unsafe(no_mangle)]
pub extern "C" fn anow_read(
    block: &[u8],
    param0: &mut [u16],
    param1: &mut [u8],
    param2: &mut [u8],
) -> AnowBlock
    ensures { HandedRead block.now result
        (lists param0.old param1.old param2.old)
        (lists param0.new param1.new param2.new) }
{
    anowhetele::blocks::anow_read(block, param0, param1, param2)
}

// Tells a block's head and where its sections are.
#[unsafe(no_mangle)]
pub extern "C" fn anow_sections(block: &[u8]) -> AnowBlock
    ensures { result ≡ handed_block (sections_of block.now) }
{
    anowhetele::blocks::anow_sections(block)
}

// Tells where the name of the node at an index stands.
#[unsafe(no_mangle)]
pub extern "C" fn anow_node_name(block: &[u8], index: u64) -> AnowNode
    ensures { result ≡ handed_node (node_name_of block.now index) }
{
    anowhetele::blocks::anow_node_name(block, index)
}
