// Prices: what the nodes that stand in a part of the world cost by a rate sheet.
#![tactic(auto)]

mod admission;
pub mod answer;
pub mod bill;
pub mod block_price;
mod names;
mod record_price;
pub mod sheet_price;
mod tables;
