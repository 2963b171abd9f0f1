//! Two sessions over one book: the account of a row is the same in both.

use crate::expected::{holds, is_at, refused, stands, taken};
use crate::setup::{BEGUN, CUSTOMER, bank_line, book_of, free, gold, silver, tender};
use crate::suspension::{Suspended, spent, suspend};
use crate::tally::Tally;
use measures::{Lots, Ticks};
use rounds::sides::Side;
use rounds::stages::Stage;
use std::alloc::Global;

/// At 100 a lot of gold asks 6,000 fen, one of silver 15,000. Ten of gold and one of silver use up 75,000; two of gold given
/// back do not make up for one of silver, three do, and 3 × 6,000 − 15,000 = 3,000 are left.
fn what_one_freezes_the_other_cannot(heap: Global) -> Option<bool> {
    let mut gold = gold(heap, 100)?;
    let mut silver = silver(heap, 100)?;
    let mut book = book_of(heap, &[free(0), free(0), free(0), free(75_000)])?;
    Some(
        taken(
            tender(Side::Buy, &mut gold, &mut book, BEGUN, CUSTOMER, 10),
            0,
            10,
        ) && taken(
            tender(Side::Sell, &mut silver, &mut book, BEGUN, CUSTOMER, 1),
            0,
            1,
        ) && holds(&book, CUSTOMER, 0, 75_000)
            && refused(
                tender(Side::Buy, &mut gold, &mut book, BEGUN, CUSTOMER, 1),
                32,
            )
            && refused(
                tender(Side::Sell, &mut silver, &mut book, BEGUN, CUSTOMER, 1),
                32,
            )
            && stands(
                gold.reduce(&mut book, BEGUN, CUSTOMER, 0, Lots(2)),
                Stage::Market,
                100,
            )
            && refused(
                tender(Side::Sell, &mut silver, &mut book, BEGUN, CUSTOMER, 1),
                32,
            )
            && stands(
                gold.reduce(&mut book, BEGUN, CUSTOMER, 0, Lots(1)),
                Stage::Market,
                100,
            )
            && taken(
                tender(Side::Sell, &mut silver, &mut book, BEGUN, CUSTOMER, 1),
                1,
                1,
            )
            && holds(&book, CUSTOMER, 3_000, 72_000),
    )
}

/// Gold draws 60,000 fen and silver 15,000. Gold is announced and releases its own, so that silver can draw four lots more.
fn a_measure_releases_its_own_session_only(heap: Global) -> Option<bool> {
    let mut gold = gold(heap, 100)?;
    let mut silver = silver(heap, 100)?;
    let mut book = book_of(heap, &[bank_line(75_000, 0)])?;
    let drawn = taken(tender(Side::Buy, &mut gold, &mut book, BEGUN, 0, 10), 0, 10)
        && taken(tender(Side::Buy, &mut silver, &mut book, BEGUN, 0, 1), 0, 1)
        && refused(tender(Side::Buy, &mut silver, &mut book, BEGUN, 0, 4), 32);
    let Suspended { mut session, order } = suspend(gold, BEGUN, 100)?;
    let answer = order.announce(&mut session, &mut book, BEGUN, Ticks(100));
    let (_, announced) = spent(session, answer)?;
    Some(
        drawn
            && is_at(announced, Stage::Announced, 100)
            && holds(&book, 0, 60_000, 15_000)
            && taken(tender(Side::Buy, &mut silver, &mut book, BEGUN, 0, 4), 1, 4)
            && holds(&book, 0, 0, 75_000),
    )
}

/// Plays the trials of this file.
// call by call: a table of the trials would be function pointers that are handed out
pub fn play(tally: &mut Tally) -> anyhow::Result<()> {
    tally.play(
        "what_one_freezes_the_other_cannot",
        what_one_freezes_the_other_cannot,
    )?;
    tally.play(
        "a_measure_releases_its_own_session_only",
        a_measure_releases_its_own_session_only,
    )
}
