// A running tally: the rows of a tally in the front of a lent buffer, to which the counted names of one block after another are added.
#![tactic(auto)]

pub mod absorb;
pub mod state;
