// The census of a block: its nodes in a part of the world counted by content id, and the names that they use, in order.
#![tactic(auto)]

pub mod census;
pub mod clear;
mod clip;
mod count;
pub mod places;
mod sort;
mod used;
