// The MapBlock reader: one scan judges a block and tells where things are; the reader, the sections, rows from the front and the names of nodes
// stand on it.
#![tactic(auto)]

pub mod light;
pub mod node;
pub mod read;
pub mod row_questions;
pub mod scan;
