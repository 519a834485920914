// Sheets: the head and the records, each judged against the last key. No tally is made here.
#![tactic(auto)]

pub mod head;
pub mod records;
