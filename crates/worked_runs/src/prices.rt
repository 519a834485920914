// Document 02, item 4: price from the rate sheet. What is priced is the shortest block of version 29, 4,096 nodes of air, at key -1.
use crate::blocks::{AIR, ALL_ZERO, ROOM, front, head, put_block};
use crate::printing::verdict;
use crate::reading::is_answer;
use crate::sheets::put_one;
use anowhetele::answer::AnowAnswer;
use anowhetele::prices::{AnowBill, anow_price_block, anow_price_sheet, anow_rates_check};
use position::lot::Lot;
use position::span::Span;
use pricing::bill::{Bill, RunningBill, add_bill};
use std::{fmt, io};
use tally::rows::MAX_COUNT;
use wire::store::put_number;

const KEY: i64 = -1;

// The first key above the greatest.
const BAD_KEY: i64 = 34_351_347_712;

// Air from 0 at 1500, and from 1000000 at 2000; and where the two seconds stand.
const RATES: [u8; 35] =
    *b"RTE\x00\x01\x00\x00\x00\x02\x00\x03air\x00\x00\x00\x00\x00\x00\x05\xdc\x00\x03air\x00\x0f\x42\x40\x00\x00\x07\xd0";

const FIRST_AT: usize = 14;

const SECOND_AT: usize = 27;

// No rows; air from 1000000 at 2000; air from 0 at 0.
const NO_ROWS: [u8; 9] = *b"RTE\x00\x01\x00\x00\x00\x00";

const LATER: [u8; 22] = *b"RTE\x00\x01\x00\x00\x00\x01\x00\x03air\x00\x0f\x42\x40\x00\x00\x07\xd0";

const FREE: [u8; 22] = *b"RTE\x00\x01\x00\x00\x00\x01\x00\x03air\x00\x00\x00\x00\x00\x00\x00\x00";

// A row that is stated and is not there.
const MALFORMED: [u8; 9] = *b"RTE\x00\x01\x00\x00\x00\x01";

// Of no nodes, and of a refusal.
const NOTHING: Bill = Bill {
    total: 0,
    unpriced: 0,
};

// What a call that prices answers: a bill, or a refusal with its record and its place.
#[derive(Clone, Copy, Debug, PartialEq, Eq, Hash)]
struct Priced(AnowBill);

impl fmt::Display for Priced {
    fn fmt<W: fmt::Write>(&self, f: &mut fmt::Formatter<W>) -> fmt::Result {
        let AnowBill {
            answer,
            total,
            unpriced,
        } = self.0;
        let AnowAnswer {
            number,
            index,
            offset,
            ..
        } = answer;
        if number == 0 {
            write!(f, "total {total}, unpriced {unpriced}")
        } else {
            write!(f, "{number} record {index} at {offset}")
        }
    }
}

// Tells whether a call answered this number and this bill, with 0 for the record and the place.
fn is_priced(told: AnowBill, number: u32, bill: Bill) -> bool {
    is_answer(told.answer, number, 0)
        && told.answer.index == 0
        && told.total == bill.total
        && told.unpriced == bill.unpriced
}

// Shows a bill beside what is expected.
fn bill_line(rt: &impl Print, asked: &str, told: AnowBill, bill: Bill) -> io::Result<()> {
    let is_right = is_priced(told, 0, bill);
    println!(rt; "{asked}: {}; {}", Priced(told), verdict(is_right))
}

// Shows a refusal beside the number that is expected.
fn refusal_line(rt: &impl Print, asked: &str, told: AnowBill, number: u32) -> io::Result<()> {
    let is_right = is_priced(told, number, NOTHING);
    println!(rt; "{asked}: {}; {}", Priced(told), verdict(is_right))
}

// Shows what the block saved at a second costs in the whole world, alone and as the one record of a sheet.
#[inline(never)]
fn price_lines(
    rt: &impl Print,
    asked: &str,
    timestamp: u32,
    rates: &[u8],
    bill: Bill,
) -> io::Result<()> {
    let mut block = [0u8; ROOM];
    let mut sheet = [0u8; 2 * ROOM];
    let n = put_block(head(29, 0, timestamp), ALL_ZERO, &AIR, &mut block);
    let m = put_one(&mut sheet, KEY, timestamp);
    let alone = anow_price_block(KEY, &block[..n], rates, Lot::WORLD, Span::ALL_TIME);
    let in_sheet = anow_price_sheet(front(&sheet, m), rates, Lot::WORLD, Span::ALL_TIME);
    bill_line(rt, asked, alone, bill)?;
    bill_line(rt, "  in a sheet", in_sheet, bill)
}

// Shows what the block costs by each rate sheet.
fn prices(rt: &impl Print) -> io::Result<()> {
    println!(rt; "\nDocument 02, item 4: price from the rate sheet")?;
    let cases: [(&str, u32, &[u8], u64, u64); 5] = [
        ("saved at 999998", 999_998, &RATES, 6_144_000, 0),
        ("saved at 1000000", 1_000_000, &RATES, 8_192_000, 0),
        ("a rate sheet of no rows", 999_998, &NO_ROWS, 0, 4096),
        ("a rate that begins later", 999_998, &LATER, 0, 4096),
        ("a price of 0", 999_998, &FREE, 0, 0),
    ];
    for (asked, timestamp, rates, total, unpriced) in cases {
        price_lines(rt, asked, timestamp, rates, Bill { total, unpriced })?;
    }
    Ok(())
}

// Shows whether air from one second on and then from another is a rate sheet.
#[inline(never)]
fn seconds(rt: &impl Print) -> io::Result<()> {
    println!(rt; "\nComparing the seconds of rates as text")?;
    for (first, second, number) in [(9, 10, 0), (10, 9, 40), (9, 9, 40)] {
        let mut rates = RATES;
        put_number(&mut rates, FIRST_AT, first);
        put_number(&mut rates, SECOND_AT, second);
        let told = anow_rates_check(&rates).number;
        let is_right = told == number;
        println!(rt;
            "seconds {first} then {second}: {told}; {}",
            verdict(is_right)
        )?;
    }
    Ok(())
}

// Shows what the halves of the block cost, cut on x between the layers -9 and -8, and that they add up to the whole.
fn halves(rt: &impl Print, rates: &[u8], half: Bill) -> io::Result<()> {
    let mut room = [0u8; ROOM];
    let low = Lot {
        x1: -9,
        ..Lot::WORLD
    };
    let high = Lot {
        x0: -8,
        ..Lot::WORLD
    };
    let n = put_block(head(29, 0, 999_998), ALL_ZERO, &AIR, &mut room);
    let block = &room[..n];
    let whole = anow_price_block(KEY, block, rates, Lot::WORLD, Span::ALL_TIME);
    let a = anow_price_block(KEY, block, rates, low, Span::ALL_TIME);
    let b = anow_price_block(KEY, block, rates, high, Span::ALL_TIME);
    let sum = AnowBill {
        answer: whole.answer,
        total: a.total.wrapping_add(b.total),
        unpriced: a.unpriced.wrapping_add(b.unpriced),
    };
    let bill = Bill {
        total: whole.total,
        unpriced: whole.unpriced,
    };
    bill_line(rt, "  x up to -9", a, half)?;
    bill_line(rt, "  x from -8 on", b, half)?;
    bill_line(rt, "  together, as the whole", sum, bill)
}

// Shows the halves by rates, and by none.
fn both_halves(rt: &impl Print) -> io::Result<()> {
    let priced = Bill {
        total: 3_072_000,
        unpriced: 0,
    };
    let unpriced = Bill {
        total: 0,
        unpriced: 2048,
    };
    println!(rt; "\nTwo half lots")?;
    println!(rt; "saved at 999998")?;
    halves(rt, &RATES, priced)?;
    println!(rt; "a rate sheet of no rows")?;
    halves(rt, &NO_ROWS, unpriced)
}

// Shows which refusal of a block comes first, by calls that are mended fault by fault.
fn block_refusals(rt: &impl Print, bad: Lot) -> io::Result<()> {
    let cases: [(&str, i64, &[u8], Lot, u32); 4] = [
        (
            "a bad lot, a malformed rate sheet, a bad key and no bytes",
            BAD_KEY,
            &MALFORMED,
            bad,
            10,
        ),
        (
            "a malformed rate sheet, a bad key and no bytes",
            BAD_KEY,
            &MALFORMED,
            Lot::WORLD,
            40,
        ),
        ("a bad key and no bytes", BAD_KEY, &RATES, Lot::WORLD, 9),
        ("no bytes", KEY, &RATES, Lot::WORLD, 1),
    ];
    for (asked, key, rates, lot, number) in cases {
        let told = anow_price_block(key, b"", rates, lot, Span::ALL_TIME);
        refusal_line(rt, asked, told, number)?;
    }
    Ok(())
}

// Shows the same of a sheet, which has another mark than a sheet's.
fn sheet_refusals(rt: &impl Print, bad: Lot) -> io::Result<()> {
    let sheet = b"TLY\x00\x01\x00\x00\x00\x00";
    let cases: [(&str, &[u8], Lot, u32); 3] = [
        (
            "a bad lot, a malformed rate sheet and another mark",
            &MALFORMED,
            bad,
            10,
        ),
        (
            "a malformed rate sheet and another mark",
            &MALFORMED,
            Lot::WORLD,
            40,
        ),
        ("another mark", &RATES, Lot::WORLD, 15),
    ];
    for (asked, rates, lot, number) in cases {
        let told = anow_price_sheet(sheet, rates, lot, Span::ALL_TIME);
        refusal_line(rt, asked, told, number)?;
    }
    Ok(())
}

// Shows in which order refusals come.
fn refusals(rt: &impl Print) -> io::Result<()> {
    let bad = Lot {
        x0: 1,
        x1: 0,
        ..Lot::WORLD
    };
    println!(rt; "\nThe order of refusals")?;
    block_refusals(rt, bad)?;
    sheet_refusals(rt, bad)
}

// Shows a running bill of no unpriced nodes, beside what is expected. One that is over the largest total has none.
fn running_line(
    rt: &impl Print,
    asked: &str,
    told: RunningBill,
    total: Option<u64>,
) -> io::Result<()> {
    let is_right = told.total == total && told.unpriced == 0;
    match told.total {
        Some(n) => println!(rt; "{asked}: total {n}; {}", verdict(is_right)),
        None => println!(rt; "{asked}: over; {}", verdict(is_right)),
    }
}

// Makes a bill that has a total alone.
fn bill_of(total: u64) -> Bill {
    Bill { total, unpriced: 0 }
}

// Shows that a total fits up to the largest, and that what is above it stays so. No sheet that could be run comes near it.
fn largest(rt: &impl Print) -> io::Result<()> {
    let near = RunningBill {
        total: Some(MAX_COUNT - 5),
        unpriced: 0,
    };
    let at_most = add_bill(near, bill_of(5));
    let above = add_bill(near, bill_of(6));
    println!(rt; "\nThe largest total")?;
    running_line(rt, "2^64-1 less 5, and 5", at_most, Some(MAX_COUNT))?;
    running_line(rt, "2^64-1 less 5, and 6", above, None)?;
    running_line(rt, "and 0 to that", add_bill(above, NOTHING), None)
}

// Shows all of it.
#[inline(never)]
pub(crate) fn run(rt: &impl Print) -> io::Result<()> {
    prices(rt)?;
    seconds(rt)?;
    both_halves(rt)?;
    refusals(rt)?;
    largest(rt)
}
