//! Tenders for accounts that the book does not know, and for the last ones that it does.

use crate::expected::{holds, is_unknown, refused, taken};
use crate::setup::{BEGUN, CUSTOMER, bank_line, book_of, free, gold, held, tender};
use crate::tally::Tally;
use rounds::sides::Side;
use std::alloc::Global;

/// The most that an account holds.
const MOST: u64 = 4_000_000_000_000_000_000;

/// The book ends before the customer's row. A lot at 100 asks 100 × 60 = 6,000 fen.
fn a_row_without_an_account(heap: Global) -> Option<bool> {
    let mut session = gold(heap, 100)?;
    let mut book = book_of(heap, &[free(0), free(0), free(6_000)])?;
    Some(
        is_unknown(&book, CUSTOMER)
            && refused(
                tender(Side::Buy, &mut session, &mut book, BEGUN, CUSTOMER, 1),
                31,
            )
            && is_unknown(&book, CUSTOMER)
            && taken(
                tender(Side::Buy, &mut session, &mut book, BEGUN, 2, 1),
                0,
                1,
            )
            && holds(&book, 2, 0, 6_000),
    )
}

/// Accounts whose sums are together the most, one more by either sum, and more than 64 bits hold.
fn cash_above_the_most(heap: Global) -> Option<bool> {
    let mut session = gold(heap, 100)?;
    let accounts = [
        held(6_000, MOST - 6_000),
        held(MOST, 1),
        held(0, MOST + 1),
        held(u64::MAX, u64::MAX),
    ];
    let mut book = book_of(heap, &accounts)?;
    Some(
        refused(tender(Side::Sell, &mut session, &mut book, BEGUN, 1, 1), 31)
            && refused(tender(Side::Sell, &mut session, &mut book, BEGUN, 2, 1), 31)
            && refused(
                tender(Side::Sell, &mut session, &mut book, BEGUN, CUSTOMER, 1),
                31,
            )
            && taken(
                tender(Side::Sell, &mut session, &mut book, BEGUN, 0, 1),
                0,
                1,
            )
            && holds(&book, 0, 0, MOST)
            && is_unknown(&book, 1),
    )
}

/// Lines of the most, one more, and drawn by one more than they are; and one that is drawn whole, so that it is known (32).
fn bank_lines_above_the_most(heap: Global) -> Option<bool> {
    let mut session = gold(heap, 100)?;
    let accounts = [
        bank_line(MOST, 0),
        bank_line(MOST + 1, 0),
        bank_line(6_000, 6_001),
        bank_line(6_000, 6_000),
    ];
    let mut book = book_of(heap, &accounts)?;
    Some(
        refused(tender(Side::Buy, &mut session, &mut book, BEGUN, 1, 1), 31)
            && refused(tender(Side::Buy, &mut session, &mut book, BEGUN, 2, 1), 31)
            && refused(
                tender(Side::Buy, &mut session, &mut book, BEGUN, CUSTOMER, 1),
                32,
            )
            && taken(
                tender(Side::Buy, &mut session, &mut book, BEGUN, 0, 1),
                0,
                1,
            )
            && holds(&book, 0, MOST - 6_000, 6_000)
            && is_unknown(&book, 2)
            && holds(&book, CUSTOMER, 0, 6_000),
    )
}

/// Plays the trials of this file.
// call by call: a table of the trials would be function pointers that are handed out
pub fn play(tally: &mut Tally) -> anyhow::Result<()> {
    tally.play("a_row_without_an_account", a_row_without_an_account)?;
    tally.play("cash_above_the_most", cash_above_the_most)?;
    tally.play("bank_lines_above_the_most", bank_lines_above_the_most)
}
