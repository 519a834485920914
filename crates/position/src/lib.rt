// Places and times: position keys, the nodes of a block, lots, spans and parts.
#![tactic(auto)]

pub mod key;
pub mod lot;
pub mod node;
pub mod part;
pub mod span;
