// The meter: the nodes that stand in a part of the world, counted name by name.
#![tactic(auto)]

mod adding;
pub mod answer;
pub mod block_tally;
pub mod sheet_tally;
pub mod stream;
pub mod tables;
