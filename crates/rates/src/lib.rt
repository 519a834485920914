// Rate sheets: the bytes RTE, a version, and rows of a name, a from-second and a price in the order of names and seconds. Each function is
// proved against specs/.
#![tactic(auto)]

pub mod check;
mod head;
pub mod index;
pub mod lookup;
pub mod rows;
