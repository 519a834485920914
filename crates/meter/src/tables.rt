// The tables that a tally works in.

use mapblock::nodes::{IDS, NODES};

// The tables that the census of a block works in. `counts` has a counter for each id, and is clear between blocks. `places` and `scratch` are
// tables to work in, and what they hold between blocks is open. A copy would be of 192 KiB, so there is none.
#[derive(Drop)]
pub struct CensusTables {
    pub counts: [u16; IDS],
    pub places: [usize; NODES],
    pub scratch: [usize; NODES],
}

impl CensusTables {
    ghost use Rattle.std.specs.Prelude.{◌≡◌};
    ghost use Rattle.mapblock.specs.Table.{clear_table};

    // Makes clear tables.
    #[tactic(auto, unfolding(mapblock::specs::Table::clear_table))]
    pub fn new() -> CensusTables
        ensures { result.counts ≡ clear_table }
    {
        CensusTables {
            counts: [0; IDS],
            places: [0; NODES],
            scratch: [0; NODES],
        }
    }
}

// The tables of a sheet's tally, which are set up once and serve block after block. `ids` tells which ids of a block are taken while it is judged,
// and is clear between blocks.
#[derive(Drop)]
pub struct Tables {
    pub ids: [u8; IDS],
    pub census: CensusTables,
}

impl Tables {
    ghost use Rattle.std.specs.Prelude.{◌≡◌};
    ghost use Rattle.mapblock.specs.Table.{clear_table};

    // Makes clear tables.
    #[tactic(auto, unfolding(mapblock::specs::Table::clear_table))]
    pub fn new() -> Tables
        ensures ids { result.ids ≡ clear_table }
        ensures counts { result.census.counts ≡ clear_table }
    {
        Tables {
            ids: [0; IDS],
            census: CensusTables::new(),
        }
    }
}
