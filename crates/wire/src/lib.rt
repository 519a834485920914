// Bytes and numbers in code, each proved against the formats of specs/.
#![tactic(auto)]

pub mod fields;
pub mod heads;
pub mod marks;
pub mod number;
pub mod order;
pub mod ranges;
pub mod store;
