// Whether bytes are a rate sheet.
ghost use Rattle.std.specs.Prelude.{◌≡◌};
ghost use Rattle.rates.specs.Rates.{check_rates_of};
ghost use Rattle.rates.specs.Told.{told_rates};

use crate::index::{SLOTS, index_rates};

// Tells whether bytes are a rate sheet, and of how many rows. The walk that judges one indexes it too, and the index is not used.
pub fn check_rates(rates: &[u8]) -> Option<u32>
    ensures { told_rates result ≡ check_rates_of rates.now }
{
    let mut starts = [0usize; SLOTS];
    Some(index_rates(rates, &mut starts)?.0)
}
