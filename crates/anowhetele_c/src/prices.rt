// Prices.
ghost use Rattle.std.specs.Prelude.{◌≡◌};
ghost use Rattle.position.specs.Parts.{part_at};
ghost use Rattle.rates.specs.Rates.{check_rates_of};
ghost use Rattle.pricing.specs.Pricing.{price_block_of, price_sheet_of};
ghost use Rattle.anowhetele.specs.Answers.{handed, nothing_written};
ghost use Rattle.anowhetele.specs.Prices.{handed_bill};

use anowhetele::answer::AnowAnswer;
use anowhetele::prices::AnowBill;
use position::lot::Lot;
use position::span::Span;

// Tells whether bytes are a rate sheet.
#[unsafe(no_mangle)]
pub extern "C" fn anow_rates_check(rates: &[u8]) -> AnowAnswer
    ensures { result ≡ handed (nothing_written (check_rates_of rates.now)) }
{
    anowhetele::prices::anow_rates_check(rates)
}

// Prices the nodes of the block at a key that stand in a part.
#[unsafe(no_mangle)]
pub extern "C" fn anow_price_block(
    key: i64,
    block: &[u8],
    rates: &[u8],
    lot: Lot,
    span: Span,
) -> AnowBill
    ensures { result
        ≡ handed_bill (price_block_of key block.now rates.now (part_at lot span)) }
{
    anowhetele::prices::anow_price_block(key, block, rates, lot, span)
}

// Prices the nodes of a sheet's blocks that stand in a part.
#[unsafe(no_mangle)]
pub extern "C" fn anow_price_sheet(sheet: &[u8], rates: &[u8], lot: Lot, span: Span) -> AnowBill
    ensures { result
        ≡ handed_bill (price_sheet_of sheet.now rates.now (part_at lot span)) }
{
    anowhetele::prices::anow_price_sheet(sheet, rates, lot, span)
}
