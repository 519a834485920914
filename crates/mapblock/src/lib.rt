// MapBlocks of versions 22 to 29, unpacked: what a block is, and its rows, lists and node data in code.
#![tactic(auto)]

pub mod bound;
pub mod fault;
pub mod head;
pub mod inventory;
pub mod lists;
pub mod metadata;
pub mod names;
pub mod nodes;
pub mod objects;
pub mod positions;
pub mod rows;
pub mod timers;
