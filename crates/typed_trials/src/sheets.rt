//! The sheet, in the stage that has one and in those that have none.

use crate::expected::{fill, filled, holds, is_at, refused, stands, taken};
use crate::setup::{
    BEGUN, CLOSED, CUSTOMER, LIMIT, ROUND_OVER, book_of, free, quoting, silver, tender,
};
use crate::suspension::{Suspended, spent, suspend};
use crate::tally::Tally;
use contracts::shau::Shau;
use lines::fills::Fill;
use measures::{Lots, Ticks};
use messages::prices::Prices;
use rounds::sides::Side;
use rounds::stages::Stage;
use session::session::Session;
use sharing::by_turn::ByTurn;
use std::alloc::Global;

/// Goes through every stage but the fixed one. 401 lots sold at 10 (401 × 10 × 60 = 240,600 fen) would lower the price by
/// 10, so the session halts.
fn no_sheet_without_a_fix(heap: Global) -> Option<bool> {
    let mut session: Session<Shau, ByTurn> = quoting(heap, 10, LIMIT, ByTurn { start: 0 })?;
    let mut book = book_of(heap, &[free(240_600)])?;
    let halted = refused(session.sheet(), 20)
        && stands(session.begin(BEGUN, &Prices::Typed(&[])), Stage::Market, 10)
        && refused(session.sheet(), 20)
        && taken(
            tender(Side::Sell, &mut session, &mut book, BEGUN, 0, 401),
            0,
            401,
        )
        && stands(session.close(&mut book, CLOSED), Stage::Supplementary, 10)
        && refused(session.sheet(), 20)
        && stands(session.close(&mut book, ROUND_OVER), Stage::Halted, 10)
        && refused(session.sheet(), 20);
    let Suspended { mut session, order } = suspend(session, ROUND_OVER, 10)?;
    let unfixed = refused(session.sheet(), 20);
    let answer = order.announce(&mut session, &mut book, ROUND_OVER, Ticks(7));
    let (session, announced) = spent(session, answer)?;
    Some(halted && unfixed && is_at(announced, Stage::Announced, 7) && refused(session.sheet(), 20))
}

/// The lots of all fills on one side.
fn sum<F: Fn(&Fill) -> Lots>(fills: &[Fill], side: F) -> u32
    requires { F.IsAlwaysCallable side }
{
    fills
        .iter()
        .fold(0, |lots: u32, fill| lots.saturating_add(side(fill).0))
}

/// Whether a session has a sheet with a fill a row, and as many lots bought as sold.
fn is_level<C, P>(session: &Session<C, P>) -> bool {
    let Ok(sheet) = session.sheet() else {
        return false;
    };
    let bought = sum(sheet.fills, |fill| fill.bought);
    let sold = sum(sheet.fills, |fill| fill.sold);
    sheet.fills.len() == session.row_count() && bought == sold
}

/// Six lots are bought by the customer, one is sold by row 0 and, in the supplementary period, two by row 1. The excess of
/// three is a lot for each member. Six are bought, and 2 + 3 + 1 sold. The lines stay frozen, 15,000 fen a lot; the shares
/// freeze nothing.
fn the_sheet_of_a_fix(heap: Global) -> Option<bool> {
    let mut session = silver(heap, 100)?;
    let mut book = book_of(heap, &[free(90_000), free(90_000), free(0), free(90_000)])?;
    Some(
        taken(
            tender(Side::Buy, &mut session, &mut book, BEGUN, CUSTOMER, 6),
            0,
            6,
        ) && taken(
            tender(Side::Sell, &mut session, &mut book, BEGUN, 0, 1),
            1,
            1,
        ) && stands(session.close(&mut book, CLOSED), Stage::Supplementary, 100)
            && taken(
                tender(Side::Sell, &mut session, &mut book, CLOSED, 1, 2),
                2,
                2,
            )
            && stands(session.close(&mut book, ROUND_OVER), Stage::Fixed, 100)
            && filled(
                &session,
                100,
                &[fill(0, 2), fill(0, 3), fill(0, 1), fill(6, 0)],
            )
            && is_level(&session)
            && refused(session.close(&mut book, ROUND_OVER), 20)
            && holds(&book, 0, 75_000, 15_000)
            && holds(&book, 1, 60_000, 30_000)
            && holds(&book, 2, 0, 0)
            && holds(&book, CUSTOMER, 0, 90_000),
    )
}

/// Plays the trials of this file.
// call by call: a table of the trials would be function pointers that are handed out
pub fn play(tally: &mut Tally) -> anyhow::Result<()> {
    tally.play("no_sheet_without_a_fix", no_sheet_without_a_fix)?;
    tally.play("the_sheet_of_a_fix", the_sheet_of_a_fix)
}
