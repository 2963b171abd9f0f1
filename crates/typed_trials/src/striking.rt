//! Closes that strike lines, over a book that another hand writes to.

use crate::expected::{holds, is_at, is_unknown, refused, stands, taken};
use crate::setup::{
    BEGUN, CLOSED, CUSTOMER, ROUND_OVER, bank_line, book_of, free, gold, held, silver, tender,
};
use crate::tally::Tally;
use books::balance::Balance;
use books::book::MarginBook;
use contracts::shau::Shau;
use measures::Fen;
use rounds::sides::Side;
use rounds::stages::Stage;
use session::session::Session;
use sharing::by_turn::ByTurn;
use std::alloc::Global;

/// Gold at 100 in the supplementary period: row 0 has bought 200 lots (1,200,000 fen), the customer 200 and 100
/// (1,800,000), and row 1 has sold 50 (300,000). The excess of 450 lots will raise the price by 10.
fn before_a_rise<B: MarginBook>(heap: Global, book: &mut B) -> Option<Session<Shau, ByTurn>> {
    let mut session = gold(heap, 100)?;
    let ready = taken(tender(Side::Buy, &mut session, book, BEGUN, 0, 200), 0, 200)
        && taken(
            tender(Side::Buy, &mut session, book, BEGUN, CUSTOMER, 200),
            1,
            200,
        )
        && taken(tender(Side::Sell, &mut session, book, BEGUN, 1, 50), 2, 50)
        && taken(
            tender(Side::Buy, &mut session, book, BEGUN, CUSTOMER, 100),
            3,
            100,
        )
        && stands(session.close(book, CLOSED), Stage::Supplementary, 100);
    ready.then_some(session)
}

/// Another hand releases a fen of the customer's. Either line alone could be released, and row 0's too; the sum cannot,
/// so nothing is.
fn a_rise_after_another_hand(heap: Global) -> Option<bool> {
    let mut book = book_of(
        heap,
        &[free(1_200_000), free(300_000), free(0), free(1_800_000)],
    )?;
    let mut session = before_a_rise(heap, &mut book)?;
    Some(
        book.release(CUSTOMER, Fen(1)).is_ok()
            && refused(session.close(&mut book, ROUND_OVER + 1), 32)
            && is_at(session.standing(), Stage::Supplementary, 100)
            && session.clock() == CLOSED
            && holds(&book, 0, 0, 1_200_000)
            && holds(&book, CUSTOMER, 1, 1_799_999)
            && book.freeze(CUSTOMER, Fen(1)).is_ok()
            && stands(session.close(&mut book, ROUND_OVER), Stage::Market, 110)
            && holds(&book, 0, 1_200_000, 0)
            && holds(&book, 1, 0, 300_000)
            && holds(&book, CUSTOMER, 1_800_000, 0),
    )
}

/// The close is lent books in which rows 0 and 3 are both at fault, each in its own way: row 0 decides.
fn the_first_row_at_fault_decides(heap: Global) -> Option<bool> {
    let mut book = book_of(
        heap,
        &[free(1_200_000), free(300_000), free(0), free(1_800_000)],
    )?;
    let mut session = before_a_rise(heap, &mut book)?;
    let mut short_first = book_of(heap, &[held(0, 1_199_999)])?;
    let unknown = held(u64::MAX, 1);
    let mut unknown_first = book_of(heap, &[unknown, free(0), free(0), held(0, 1_799_999)])?;
    Some(
        refused(session.close(&mut short_first, ROUND_OVER), 32)
            && holds(&short_first, 0, 0, 1_199_999)
            && refused(session.close(&mut unknown_first, ROUND_OVER), 31)
            && holds(&unknown_first, CUSTOMER, 0, 1_799_999)
            && is_at(session.standing(), Stage::Supplementary, 100)
            && stands(session.close(&mut book, ROUND_OVER), Stage::Market, 110)
            && holds(&book, CUSTOMER, 1_800_000, 0),
    )
}

/// The close is lent a book that knows only rows 0 and 3, whose lines are struck. Row 1 has a line that stands on, row 2
/// has none: neither is asked.
fn rows_with_nothing_to_release(heap: Global) -> Option<bool> {
    let mut book = book_of(
        heap,
        &[free(1_200_000), free(300_000), free(0), free(1_800_000)],
    )?;
    let mut session = before_a_rise(heap, &mut book)?;
    let unknown = held(u64::MAX, 1);
    let mut other = book_of(
        heap,
        &[held(5, 1_200_000), unknown, unknown, held(0, 1_800_001)],
    )?;
    Some(
        stands(session.close(&mut other, ROUND_OVER), Stage::Market, 110)
            && holds(&other, 0, 1_200_005, 0)
            && is_unknown(&other, 1)
            && is_unknown(&other, 2)
            && holds(&other, CUSTOMER, 1_800_000, 1),
    )
}

/// Silver at 100: 700 lots sold draw 700 × 100 × 150 = 10,500,000 fen; the 40 bought by row 2 draw 600,000. What remains,
/// 660, lowers the price by 2 and strikes the sale.
fn a_fall_on_bank_lines(heap: Global) -> Option<bool> {
    let mut session = silver(heap, 100)?;
    let none = bank_line(0, 0);
    let mut book = book_of(
        heap,
        &[none, none, bank_line(600_000, 0), bank_line(10_500_000, 0)],
    )?;
    Some(
        taken(
            tender(Side::Sell, &mut session, &mut book, BEGUN, CUSTOMER, 700),
            0,
            700,
        ) && taken(
            tender(Side::Buy, &mut session, &mut book, BEGUN, 2, 40),
            1,
            40,
        ) && stands(session.close(&mut book, CLOSED), Stage::Supplementary, 100)
            && book.release(CUSTOMER, Fen(1)).is_ok()
            && refused(session.close(&mut book, ROUND_OVER), 32)
            && holds(&book, CUSTOMER, 1, 10_499_999)
            && book.freeze(CUSTOMER, Fen(1)).is_ok()
            && stands(session.close(&mut book, ROUND_OVER), Stage::Market, 98)
            && holds(&book, 2, 0, 600_000)
            && holds(&book, CUSTOMER, 10_500_000, 0),
    )
}

/// A close that strikes nothing asks no book, so an empty one will do: at a market close, at a halt (401 lots sold at 10
/// would lower the price by 10) and at a fix (400 lots). All 801 × 10 × 60 = 480,600 fen stay frozen.
fn closes_that_ask_no_book(heap: Global) -> Option<bool> {
    let mut empty = book_of::<Balance>(heap, &[])?;
    let mut book = book_of(heap, &[free(1_000_000)])?;
    let mut halting = gold(heap, 10)?;
    let mut fixing = gold(heap, 10)?;
    Some(
        taken(
            tender(Side::Sell, &mut halting, &mut book, BEGUN, 0, 401),
            0,
            401,
        ) && stands(halting.close(&mut empty, CLOSED), Stage::Supplementary, 10)
            && stands(halting.close(&mut empty, ROUND_OVER), Stage::Halted, 10)
            && taken(
                tender(Side::Sell, &mut fixing, &mut book, BEGUN, 0, 400),
                0,
                400,
            )
            && stands(fixing.close(&mut empty, CLOSED), Stage::Supplementary, 10)
            && stands(fixing.close(&mut empty, ROUND_OVER), Stage::Fixed, 10)
            && holds(&book, 0, 519_400, 480_600),
    )
}

/// Plays the trials of this file.
// call by call: a table of the trials would be function pointers that are handed out
pub fn play(tally: &mut Tally) -> anyhow::Result<()> {
    tally.play("a_rise_after_another_hand", a_rise_after_another_hand)?;
    tally.play(
        "the_first_row_at_fault_decides",
        the_first_row_at_fault_decides,
    )?;
    tally.play("rows_with_nothing_to_release", rows_with_nothing_to_release)?;
    tally.play("a_fall_on_bank_lines", a_fall_on_bank_lines)?;
    tally.play("closes_that_ask_no_book", closes_that_ask_no_book)
}
