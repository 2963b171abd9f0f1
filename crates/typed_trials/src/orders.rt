//! Measures that are refused: the suspension order comes back each time, until one is accepted.

use crate::expected::{holds, is_at, refused, taken};
use crate::setup::{BEGUN, CUSTOMER, bank_line, book_of, free, silver, tender};
use crate::suspension::{Suspended, handed_back, spent, suspend};
use crate::tally::Tally;
use books::balance::Balance;
use books::bank_line::BankLine;
use books::book::MarginBook;
use contracts::shag::Shag;
use measures::{Fen, Lots, Ticks};
use rounds::sides::Side;
use rounds::stages::Stage;
use session::session::Session;
use sharing::table_order::TableOrder;
use std::alloc::Global;

/// Silver at 100, suspended at `BEGUN + 5` after the customer bought 10 lots (10 × 100 × 150 = 150,000 fen) and row 1
/// sold 4 (60,000).
fn suspended_silver<B: MarginBook>(
    heap: Global,
    book: &mut B,
) -> Option<Suspended<Shag, TableOrder>> {
    let mut session = silver(heap, 100)?;
    let ready = taken(
        tender(Side::Buy, &mut session, book, BEGUN, CUSTOMER, 10),
        0,
        10,
    ) && taken(tender(Side::Sell, &mut session, book, BEGUN, 1, 4), 1, 4);
    suspend(ready.then_some(session)?, BEGUN + 5, 100)
}

/// Another hand releases a fen of the customer's: both measures are refused, and row 1's money is not released either. Once
/// the fen is frozen again, the session is reissued at 90; a lot then asks 90 × 150 = 13,500 fen.
fn a_reissue_after_another_hand(heap: Global) -> Option<bool> {
    let mut book = book_of(heap, &[free(0), free(60_000), free(0), free(150_000)])?;
    let Suspended { mut session, order } = suspended_silver(heap, &mut book)?;
    let released = book.release(CUSTOMER, Fen(1)).is_ok();
    let answer = order.reissue(&mut session, &mut book, BEGUN + 7, Ticks(90));
    let (no_reissue, order) = handed_back(answer, 32)?;
    let answer = order.announce(&mut session, &mut book, BEGUN + 7, Ticks(90));
    let (no_announcement, order) = handed_back(answer, 32)?;
    let kept = is_at(session.standing(), Stage::Suspended, 100)
        && session.clock() == BEGUN + 5
        && holds(&book, 1, 0, 60_000)
        && holds(&book, CUSTOMER, 1, 149_999);
    let frozen = book.freeze(CUSTOMER, Fen(1)).is_ok();
    let answer = order.reissue(&mut session, &mut book, BEGUN + 6, Ticks(90));
    let (mut session, standing) = spent(session, answer)?;
    Some(
        released
            && no_reissue
            && no_announcement
            && kept
            && frozen
            && is_at(standing, Stage::Market, 90)
            && holds(&book, 1, 60_000, 0)
            && holds(&book, CUSTOMER, 150_000, 0)
            && refused(
                session.reduce(&mut book, BEGUN + 6, CUSTOMER, 0, Lots(1)),
                28,
            )
            && taken(
                tender(Side::Buy, &mut session, &mut book, BEGUN + 6, CUSTOMER, 1),
                2,
                1,
            )
            && holds(&book, CUSTOMER, 136_500, 13_500),
    )
}

/// A reissue is lent a book without accounts (31), an announcement one in which another hand has released all of row 1's
/// money (32). Once it is frozen again, the announcement is accepted.
fn an_announcement_after_another_hand(heap: Global) -> Option<bool> {
    let none = bank_line(0, 0);
    let lines = [none, bank_line(60_000, 0), none, bank_line(150_000, 0)];
    let mut book = book_of(heap, &lines)?;
    let mut empty = book_of::<BankLine>(heap, &[])?;
    let Suspended { mut session, order } = suspended_silver(heap, &mut book)?;
    let answer = order.reissue(&mut session, &mut empty, BEGUN + 5, Ticks(95));
    let (unknown, order) = handed_back(answer, 31)?;
    let released = book.release(1, Fen(60_000)).is_ok();
    let answer = order.announce(&mut session, &mut book, BEGUN + 5, Ticks(95));
    let (short, order) = handed_back(answer, 32)?;
    let kept = is_at(session.standing(), Stage::Suspended, 100)
        && holds(&book, 1, 60_000, 0)
        && holds(&book, CUSTOMER, 0, 150_000);
    let frozen = book.freeze(1, Fen(60_000)).is_ok();
    let answer = order.announce(&mut session, &mut book, BEGUN + 5, Ticks(95));
    let (session, standing) = spent(session, answer)?;
    Some(
        unknown
            && released
            && short
            && kept
            && frozen
            && is_at(standing, Stage::Announced, 95)
            && is_at(session.standing(), Stage::Announced, 95)
            && holds(&book, 1, 60_000, 0)
            && holds(&book, CUSTOMER, 150_000, 0),
    )
}

/// Silver in round 64, after as many reissues at 100 as there can be.
fn in_the_last_round<B: MarginBook>(
    heap: Global,
    book: &mut B,
) -> Option<Session<Shag, TableOrder>> {
    let mut session = silver(heap, 100)?;
    for _ in 1..64 {
        let Suspended {
            session: mut suspended,
            order,
        } = suspend(session, BEGUN, 100)?;
        let answer = order.reissue(&mut suspended, book, BEGUN, Ticks(100));
        let (reissued, standing) = spent(suspended, answer)?;
        session = is_at(standing, Stage::Market, 100).then_some(reissued)?;
    }
    Some(session)
}

/// In round 64 a reissue is refused 33 before the book is asked; an announcement asks it (31). A lot is 15,000 fen.
fn the_last_round_before_the_book(heap: Global) -> Option<bool> {
    let mut book = book_of(heap, &[free(15_000)])?;
    let mut empty = book_of::<Balance>(heap, &[])?;
    let mut session = in_the_last_round(heap, &mut book)?;
    let tendered = taken(
        tender(Side::Sell, &mut session, &mut book, BEGUN, 0, 1),
        0,
        1,
    );
    let Suspended { mut session, order } = suspend(session, BEGUN, 100)?;
    let answer = order.reissue(&mut session, &mut empty, BEGUN, Ticks(100));
    let (last, order) = handed_back(answer, 33)?;
    let answer = order.announce(&mut session, &mut empty, BEGUN, Ticks(100));
    let (unknown, order) = handed_back(answer, 31)?;
    let frozen = holds(&book, 0, 0, 15_000);
    let answer = order.announce(&mut session, &mut book, BEGUN, Ticks(101));
    let (_, standing) = spent(session, answer)?;
    Some(
        tendered
            && last
            && unknown
            && frozen
            && is_at(standing, Stage::Announced, 101)
            && holds(&book, 0, 15_000, 0),
    )
}

/// Plays the trials of this file.
// call by call: a table of the trials would be function pointers that are handed out
pub fn play(tally: &mut Tally) -> anyhow::Result<()> {
    tally.play("a_reissue_after_another_hand", a_reissue_after_another_hand)?;
    tally.play(
        "an_announcement_after_another_hand",
        an_announcement_after_another_hand,
    )?;
    tally.play(
        "the_last_round_before_the_book",
        the_last_round_before_the_book,
    )
}
