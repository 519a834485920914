// The MapBlock writer: from head, lists and sections to the bytes of a block.
#![tactic(auto)]

pub mod counts;
pub mod fit;
pub mod frames;
pub mod measure;
pub(crate) mod parts;
pub mod write;
