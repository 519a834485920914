// Blocks: the reader, the sections, the name of a node.
ghost use Rattle.std.specs.Prelude.{◌≡◌, Err};
ghost use Rattle.wire.specs.Answer.{good};
ghost use Rattle.block_reader.specs.Questions.{lists, sections_of, node_name_of, told_node_name, told_read};
ghost use Rattle.anowhetele.specs.Answers.{handed, nothing_written};
ghost use Rattle.anowhetele.specs.Blocks.{no_block, no_node, handed_block, HandedRead, handed_node};

use crate::answer::{AnowAnswer, done, plain};
use crate::numbers::{NO_SUCH, PARTS_MISFIT};
use block_reader::node::{NodeNameError, locate_node_name};
use block_reader::read::{ReadError, read, sections};
use mapblock::head::{Head, NO_HEAD, NO_SECTIONS, Sections};
use wire::ranges::{NO_RANGE, Range};

// The sections lie as four ranges, one after the other.
#[repr(C)]
#[derive(Clone, Copy, Debug, PartialEq, Eq, Hash)]
pub struct AnowBlock {
    pub answer: AnowAnswer,
    pub head: Head,
    pub sections: Sections,
}

// Makes what is handed of a block that is read.
fn read_block(shown: (Head, Sections)) -> AnowBlock
    ensures { result ≡ handed_block (good shown) }
{
    let (head, sections) = shown;
    AnowBlock {
        answer: done(0),
        head,
        sections,
    }
}

// Makes what is handed of a block that is refused.
fn no_block(answer: AnowAnswer) -> AnowBlock
    ensures { result ≡ no_block answer }
{
    AnowBlock {
        answer,
        head: NO_HEAD,
        sections: NO_SECTIONS,
    }
}

impl From<ReadError> for AnowAnswer {
    ghost from_gives = { λ e a. a ≡ handed (nothing_written (told_read (Err e))) };

    fn from(error: ReadError) -> AnowAnswer {
        match error {
            ReadError::Misfit => plain(PARTS_MISFIT),
            ReadError::Refused(refusal) => refusal.into(),
        }
    }
}

// Reads a block into the three lent lists, and tells its head and where its sections are.
pub fn anow_read(
    block: &[u8],
    param0: &mut [u16],
    param1: &mut [u8],
    param2: &mut [u8],
) -> AnowBlock
    ensures { HandedRead block.now result
        (lists param0.old param1.old param2.old)
        (lists param0.new param1.new param2.new) }
{
    match read(block, param0, param1, param2) {
        Ok(shown) => read_block(shown),
        Err(error) => no_block(error.into()),
    }
}

// Tells a block's head and where its sections are.
pub fn anow_sections(block: &[u8]) -> AnowBlock
    ensures { result ≡ handed_block (sections_of block.now) }
{
    match sections(block) {
        Ok(shown) => read_block(shown),
        Err(refusal) => no_block(refusal.into()),
    }
}

#[repr(C)]
#[derive(Clone, Copy, Debug, PartialEq, Eq, Hash)]
pub struct AnowNode {
    pub answer: AnowAnswer,
    pub name: Range,
}

// Makes what is handed of a node that is refused.
fn no_node(answer: AnowAnswer) -> AnowNode
    ensures { result ≡ no_node answer }
{
    AnowNode {
        answer,
        name: NO_RANGE,
    }
}

impl From<NodeNameError> for AnowAnswer {
    ghost from_gives = { λ e a. a ≡ handed (nothing_written (told_node_name (Err e))) };

    fn from(error: NodeNameError) -> AnowAnswer {
        match error {
            NodeNameError::NoSuchNode => plain(NO_SUCH),
            NodeNameError::Refused(refusal) => refusal.into(),
        }
    }
}

// Tells where the name of the node at an index stands.
pub fn anow_node_name(block: &[u8], index: u64) -> AnowNode
    ensures { result ≡ handed_node (node_name_of block.now index) }
{
    match locate_node_name(block, index as usize) {
        Ok(name) => AnowNode {
            answer: done(0),
            name,
        },
        Err(error) => no_node(error.into()),
    }
}
