// Tallies: the bytes TLY, a version, and rows of a name and a count in the order of the names. Each function is proved against specs/.
#![tactic(auto)]

pub mod add;
pub mod check;
pub mod head;
pub mod lookup;
pub mod merge;
pub mod rows;
