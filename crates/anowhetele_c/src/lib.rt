// The static library that a host links: each function of the crate `anowhetele` under the same name, exported to C, with the same promise.
#![tactic(auto)]

pub mod blocks;
pub mod light;
pub mod metering;
pub mod places;
pub mod prices;
pub mod rows;
pub mod tallies;
pub mod writing;
