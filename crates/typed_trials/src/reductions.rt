//! Reductions over a book that another hand writes to.

use crate::expected::{holds, is_at, refused, stands, taken};
use crate::setup::{BEGUN, CLOSED, CUSTOMER, ROUND_OVER, book_of, free, gold, silver, tender};
use crate::tally::Tally;
use books::balance::Balance;
use books::book::MarginBook;
use measures::{Fen, Lots};
use rounds::sides::Side;
use rounds::stages::Stage;
use std::alloc::Global;

/// Ten lots of silver at 100 freeze 10 × 100 × 150 = 150,000 fen; four of them are 60,000. Another hand leaves a fen less
/// than that frozen, and then freezes it again.
fn a_reduction_after_another_hand(heap: Global) -> Option<bool> {
    let mut session = silver(heap, 100)?;
    let mut book = book_of(heap, &[free(0), free(0), free(0), free(150_000)])?;
    Some(
        taken(
            tender(Side::Buy, &mut session, &mut book, BEGUN, CUSTOMER, 10),
            0,
            10,
        ) && book.release(CUSTOMER, Fen(90_001)).is_ok()
            && refused(
                session.reduce(&mut book, BEGUN + 2, CUSTOMER, 0, Lots(4)),
                32,
            )
            && holds(&book, CUSTOMER, 90_001, 59_999)
            && session.clock() == BEGUN
            && book.freeze(CUSTOMER, Fen(1)).is_ok()
            && stands(
                session.reduce(&mut book, BEGUN + 1, CUSTOMER, 0, Lots(4)),
                Stage::Market,
                100,
            )
            && holds(&book, CUSTOMER, 150_000, 0)
            && refused(
                session.reduce(&mut book, BEGUN + 1, CUSTOMER, 0, Lots(7)),
                29,
            ),
    )
}

/// The reduction is lent another book than the tender was, one without accounts.
fn a_reduction_in_an_empty_book(heap: Global) -> Option<bool> {
    let mut session = silver(heap, 100)?;
    let mut book = book_of(heap, &[free(15_000)])?;
    let mut empty = book_of::<Balance>(heap, &[])?;
    Some(
        taken(
            tender(Side::Sell, &mut session, &mut book, BEGUN, 0, 1),
            0,
            1,
        ) && refused(session.reduce(&mut empty, BEGUN, 0, 0, Lots(1)), 31)
            && is_at(session.standing(), Stage::Market, 100)
            && stands(
                session.reduce(&mut book, BEGUN, 0, 0, Lots(1)),
                Stage::Market,
                100,
            )
            && holds(&book, 0, 15_000, 0),
    )
}

/// Row 1 sells 50 lots at 100 (300,000 fen). 450 lots too many are bought, so the price rises by 10, and row 1 sells 10
/// more at 110: 10 × 110 × 60 = 66,000 fen. Reducing these releases so much; the line of round 1 cannot be reduced.
fn a_reduction_at_the_tendered_price(heap: Global) -> Option<bool> {
    let mut session = gold(heap, 100)?;
    let mut book = book_of(heap, &[free(0), free(366_000), free(0), free(3_000_000)])?;
    Some(
        taken(
            tender(Side::Buy, &mut session, &mut book, BEGUN, CUSTOMER, 500),
            0,
            500,
        ) && taken(
            tender(Side::Sell, &mut session, &mut book, BEGUN, 1, 50),
            1,
            50,
        ) && stands(session.close(&mut book, CLOSED), Stage::Supplementary, 100)
            && stands(session.close(&mut book, ROUND_OVER), Stage::Market, 110)
            && holds(&book, CUSTOMER, 3_000_000, 0)
            && taken(
                tender(Side::Sell, &mut session, &mut book, ROUND_OVER, 1, 10),
                2,
                10,
            )
            && holds(&book, 1, 0, 366_000)
            && refused(session.reduce(&mut book, ROUND_OVER, 1, 1, Lots(10)), 28)
            && stands(
                session.reduce(&mut book, ROUND_OVER, 1, 2, Lots(10)),
                Stage::Market,
                110,
            )
            && holds(&book, 1, 66_000, 300_000),
    )
}

/// Plays the trials of this file.
// call by call: a table of the trials would be function pointers that are handed out
pub fn play(tally: &mut Tally) -> anyhow::Result<()> {
    tally.play(
        "a_reduction_after_another_hand",
        a_reduction_after_another_hand,
    )?;
    tally.play("a_reduction_in_an_empty_book", a_reduction_in_an_empty_book)?;
    tally.play(
        "a_reduction_at_the_tendered_price",
        a_reduction_at_the_tendered_price,
    )
}
