// Prices.
ghost use Rattle.std.specs.Prelude.{◌≡◌};
ghost use Rattle.position.specs.Parts.{part_at};
ghost use Rattle.rates.specs.Rates.{check_rates_of};
ghost use Rattle.pricing.specs.Pricing.{price_block_of, price_sheet_of};
ghost use Rattle.pricing.specs.Told.{told_price, told_price_error};
ghost use Rattle.anowhetele.specs.Answers.{handed, nothing_written};
ghost use Rattle.anowhetele.specs.Prices.{refused_bill, handed_bill};

use crate::answer::{AnowAnswer, done, in_record, plain, record_refused};
use crate::numbers::{BAD_PART, RATES_MALFORMED, SHEET_MALFORMED, TOO_MANY};
use position::lot::Lot;
use position::part::Part;
use position::span::Span;
use pricing::answer::PriceError;
use pricing::bill::Bill;
use pricing::block_price::price_block;
use pricing::sheet_price::price_sheet;
use rates::check::check_rates;

#[repr(C)]
#[derive(Clone, Copy, Debug, PartialEq, Eq, Hash)]
pub struct AnowBill {
    pub answer: AnowAnswer,
    pub total: u64,
    pub unpriced: u64,
}

impl From<PriceError> for AnowAnswer {
    ghost from_gives = { λ e a. a ≡ handed (told_price_error e) };

    fn from(error: PriceError) -> AnowAnswer {
        match error {
            PriceError::BadPart => plain(BAD_PART),
            PriceError::RatesMalformed => plain(RATES_MALFORMED),
            PriceError::Malformed(index) => in_record(SHEET_MALFORMED, index),
            PriceError::Record { fault, index } => record_refused(fault, index),
            PriceError::TooMany(index) => in_record(TOO_MANY, index),
        }
    }
}

// Tells whether bytes are a rate sheet.
pub fn anow_rates_check(rates: &[u8]) -> AnowAnswer
    ensures { result ≡ handed (nothing_written (check_rates_of rates.now)) }
{
    match check_rates(rates) {
        Some(_) => done(0),
        None => plain(RATES_MALFORMED),
    }
}

// Makes what is handed of a price that is refused.
fn refused_bill(answer: AnowAnswer) -> AnowBill
    ensures { result ≡ refused_bill answer }
{
    AnowBill {
        answer,
        total: 0,
        unpriced: 0,
    }
}

// Gives what pricing answered, as it is handed to a host.
fn bill_answer(answer: Result<Bill, PriceError>) -> AnowBill
    ensures { result ≡ handed_bill (told_price answer) }
{
    match answer {
        Ok(Bill { total, unpriced }) => AnowBill {
            answer: done(0),
            total,
            unpriced,
        },
        Err(error) => refused_bill(error.into()),
    }
}

// Prices the nodes of the block at a key that stand in a part.
pub fn anow_price_block(key: i64, block: &[u8], rates: &[u8], lot: Lot, span: Span) -> AnowBill
    ensures { result
        ≡ handed_bill (price_block_of key block.now rates.now (part_at lot span)) }
{
    bill_answer(price_block(key, block, rates, Part { lot, span }))
}

// Prices the nodes of a sheet's blocks that stand in a part.
pub fn anow_price_sheet(sheet: &[u8], rates: &[u8], lot: Lot, span: Span) -> AnowBill
    ensures { result
        ≡ handed_bill (price_sheet_of sheet.now rates.now (part_at lot span)) }
{
    bill_answer(price_sheet(sheet, rates, Part { lot, span }))
}
