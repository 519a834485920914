// The text of a tally and of a refusal, as sheetcount prints them.
#![tactic(auto)]

mod decimal;
pub mod lines;
pub mod refusal;
pub mod text;
