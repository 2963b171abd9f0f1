//! Tenders at the edge of what an account has free.

use crate::expected::{holds, refused, stands, taken};
use crate::setup::{BEGUN, CLOSED, CUSTOMER, bank_line, book_of, free, gold, held, tender};
use crate::tally::Tally;
use books::book::MarginBook;
use rounds::sides::Side;
use rounds::stages::Stage;
use std::alloc::Global;

/// Ten lots of gold at 100 ask 10 × 100 × 60 = 60,000 fen. Account 0 has a fen less, account 1 just that; 7 are frozen in
/// both. The refused tender leaves no time and no line behind.
fn a_fen_decides<B: MarginBook + Drop>(heap: Global, mut book: B) -> Option<bool> {
    let mut session = gold(heap, 100)?;
    Some(
        refused(
            tender(Side::Buy, &mut session, &mut book, BEGUN + 2, 0, 10),
            32,
        ) && session.clock() == BEGUN
            && holds(&book, 0, 59_999, 7)
            && taken(
                tender(Side::Buy, &mut session, &mut book, BEGUN + 1, 1, 10),
                0,
                10,
            )
            && session.clock() == BEGUN + 1
            && holds(&book, 1, 0, 60_007)
            && holds(&book, 0, 59_999, 7),
    )
}

fn a_fen_in_a_cash_book(heap: Global) -> Option<bool> {
    a_fen_decides(heap, book_of(heap, &[held(59_999, 7), held(60_000, 7)])?)
}

fn a_fen_on_a_bank_line(heap: Global) -> Option<bool> {
    a_fen_decides(
        heap,
        book_of(heap, &[bank_line(60_006, 7), bank_line(60_007, 7)])?,
    )
}

/// Three lots bought and sold at 100 ask 18,000 fen each. Of ten supplementary lots three are taken, and only they count:
/// row 0 has a fen less than their margin, row 1 just that.
fn a_fen_in_the_supplementary_period(heap: Global) -> Option<bool> {
    let mut session = gold(heap, 100)?;
    let mut book = book_of(heap, &[free(17_999), free(18_000), free(0), free(18_000)])?;
    Some(
        taken(
            tender(Side::Buy, &mut session, &mut book, BEGUN, CUSTOMER, 3),
            0,
            3,
        ) && stands(session.close(&mut book, CLOSED), Stage::Supplementary, 100)
            && refused(
                tender(Side::Sell, &mut session, &mut book, CLOSED, 0, 10),
                32,
            )
            && holds(&book, 0, 17_999, 0)
            && taken(
                tender(Side::Sell, &mut session, &mut book, CLOSED, 1, 10),
                1,
                3,
            )
            && holds(&book, 1, 0, 18_000)
            && refused(
                tender(Side::Sell, &mut session, &mut book, CLOSED, 0, 1),
                26,
            ),
    )
}

/// Plays the trials of this file.
// call by call: a table of the trials would be function pointers that are handed out
pub fn play(tally: &mut Tally) -> anyhow::Result<()> {
    tally.play("a_fen_in_a_cash_book", a_fen_in_a_cash_book)?;
    tally.play("a_fen_on_a_bank_line", a_fen_on_a_bank_line)?;
    tally.play(
        "a_fen_in_the_supplementary_period",
        a_fen_in_the_supplementary_period,
    )
}
