// The library's functions for a host. Each promises the same definition as the operation behind it; the crate anowhetele_c exports them to C.
#![tactic(auto)]

pub mod answer;
pub mod blocks;
pub mod light;
pub mod metering;
pub mod numbers;
pub mod places;
pub mod prices;
pub mod rows;
pub mod tallies;
pub mod writing;
