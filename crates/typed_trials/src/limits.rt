//! Line tables of other lengths than the console's.

use crate::expected::{fill, filled, holds, is_at, refused, stands, taken};
use crate::setup::{
    BEGUN, CLOSED, CUSTOMER, OPENED, ROSTER, ROUND_OVER, book_of, free, market, tender,
};
use crate::tally::Tally;
use contracts::shag::Shag;
use contracts::shau::Shau;
use measures::{Lots, Ticks};
use messages::rows::Rows;
use rounds::faults::SessionFault;
use rounds::sides::Side;
use rounds::stages::Stage;
use session::session::Session;
use sharing::by_turn::ByTurn;
use sharing::table_order::TableOrder;
use std::alloc::Global;

/// Opens a session with no policy named.
fn opened(heap: Global, limit: usize) -> Result<Session<Shau, TableOrder>, SessionFault> {
    Session::open_in_table_order(heap, OPENED, Ticks(100), &Rows::Typed(&ROSTER), limit)
}

/// Whether a session opens with a limit.
fn opens(heap: Global, limit: usize) -> bool {
    opened(heap, limit).is_ok_and(|session| is_at(session.standing(), Stage::Quoting, 0)
        && session.row_count() == 4)
}

fn limits_at_an_opening(heap: Global) -> Option<bool> {
    Some(
        refused(opened(heap, 0), 7)
            && opens(heap, 1)
            && opens(heap, 4_096)
            && refused(opened(heap, 4_097), 7)
            && refused(opened(heap, usize::MAX), 7),
    )
}

/// The second tender finds no room, before its account is asked about. A line that is reduced to no lots gives none back.
/// A lot is 6,000 fen.
fn one_line(heap: Global) -> Option<bool> {
    let mut session: Session<Shau, ByTurn> = market(heap, 100, 1, ByTurn { start: 0 })?;
    let mut book = book_of(heap, &[free(12_000), free(12_000)])?;
    Some(
        taken(
            tender(Side::Buy, &mut session, &mut book, BEGUN, 0, 1),
            0,
            1,
        ) && refused(tender(Side::Buy, &mut session, &mut book, BEGUN, 0, 1), 30)
            && refused(tender(Side::Sell, &mut session, &mut book, BEGUN, 1, 1), 30)
            && refused(
                tender(Side::Buy, &mut session, &mut book, BEGUN, CUSTOMER, 1),
                30,
            )
            && holds(&book, 0, 6_000, 6_000)
            && holds(&book, 1, 12_000, 0)
            && stands(
                session.reduce(&mut book, BEGUN, 0, 0, Lots(1)),
                Stage::Market,
                100,
            )
            && refused(tender(Side::Buy, &mut session, &mut book, BEGUN, 0, 1), 30)
            && holds(&book, 0, 12_000, 0),
    )
}

/// A supplementary tender finds no room, after the side is checked. The lot that remains is shared: row 0 sells it.
fn one_line_in_the_supplementary_period(heap: Global) -> Option<bool> {
    let mut session: Session<Shau, ByTurn> = market(heap, 100, 1, ByTurn { start: 0 })?;
    let mut book = book_of(heap, &[free(6_000), free(6_000)])?;
    Some(
        taken(
            tender(Side::Buy, &mut session, &mut book, BEGUN, 0, 1),
            0,
            1,
        ) && stands(session.close(&mut book, CLOSED), Stage::Supplementary, 100)
            && refused(tender(Side::Buy, &mut session, &mut book, CLOSED, 1, 1), 25)
            && refused(
                tender(Side::Sell, &mut session, &mut book, CLOSED, 1, 1),
                30,
            )
            && holds(&book, 1, 6_000, 0)
            && stands(session.close(&mut book, ROUND_OVER), Stage::Fixed, 100)
            && filled(
                &session,
                100,
                &[fill(1, 1), fill(0, 0), fill(0, 0), fill(0, 0)],
            ),
    )
}

/// All 4,096 lines at 40,000 lots of silver and 9,999,984 ticks. A line freezes 40,000 × 9,999,984 × 150 =
/// 59,999,904,000,000 fen, all together 245,759,606,784,000,000. The rise of 16 strikes them all, and gives no room back.
fn all_4096_lines(heap: Global) -> Option<bool> {
    let sum = 245_759_606_784_000_000;
    let mut session: Session<Shag, TableOrder> = market(heap, 9_999_984, 4_096, TableOrder)?;
    let mut book = book_of(heap, &[free(sum)])?;
    let all_taken = (0..4_096).all(|line| {
        let answer = tender(Side::Buy, &mut session, &mut book, BEGUN, 0, 40_000);
        taken(answer, line, 40_000)
    });
    Some(
        all_taken
            && holds(&book, 0, 0, sum)
            && refused(tender(Side::Buy, &mut session, &mut book, BEGUN, 0, 1), 30)
            && stands(
                session.close(&mut book, CLOSED),
                Stage::Supplementary,
                9_999_984,
            )
            && stands(
                session.close(&mut book, ROUND_OVER),
                Stage::Market,
                10_000_000,
            )
            && holds(&book, 0, sum, 0)
            && refused(
                tender(Side::Buy, &mut session, &mut book, ROUND_OVER, 0, 1),
                30,
            ),
    )
}

/// Plays the trials of this file.
// call by call: a table of the trials would be function pointers that are handed out
pub fn play(tally: &mut Tally) -> anyhow::Result<()> {
    tally.play("limits_at_an_opening", limits_at_an_opening)?;
    tally.play("one_line", one_line)?;
    tally.play(
        "one_line_in_the_supplementary_period",
        one_line_in_the_supplementary_period,
    )?;
    tally.play("all_4096_lines", all_4096_lines)
}
