//! Openings that hand their policy back, and beginnings at executed prices.

use crate::expected::{is_at, refused, stands};
use crate::setup::{BEGUN, LIMIT, OPENED, quoting};
use crate::tally::Tally;
use contracts::shau::Shau;
use measures::Ticks;
use messages::prices::Prices;
use messages::rows::{OpenRow, Rows};
use rounds::stages::Stage;
use session::open::RefusedOpening;
use session::session::Session;
use sharing::by_turn::ByTurn;
use std::alloc::Global;

/// The number by which an opening is refused, if it hands its policy back as it was.
fn refusal(heap: Global, time: u32, previous: u32, limit: usize, rows: &[OpenRow]) -> Option<u32> {
    let policy = ByTurn { start: 5 };
    let rows = Rows::Typed(rows);
    let opened = Session::<Shau, ByTurn>::open(heap, time, Ticks(previous), &rows, limit, policy);
    let RefusedOpening { fault, policy } = opened.err()?;
    (policy.start == 5).then_some(fault.number())
}

/// The checks of an opening in their order, each with all later ones failing too: the time, the previous price, the line
/// limit, the participants.
fn a_refused_opening_hands_its_policy_back(heap: Global) -> Option<bool> {
    Some(
        refusal(heap, 86_400_000, 0, 0, &[]) == Some(2)
            && refusal(heap, OPENED, 0, 4_097, &[]) == Some(5)
            && refusal(heap, OPENED, 10_000_001, 0, &[]) == Some(5)
            && refusal(heap, OPENED, 1, 0, &[]) == Some(7)
            && refusal(heap, OPENED, 10_000_000, 4_097, &[]) == Some(7)
            && refusal(heap, OPENED, 1, LIMIT, &[]) == Some(6),
    )
}

/// Executed prices that do not come in words: 100 and 101 make 100.5, which goes up. The one quote does not decide.
fn a_beginning_at_executed_prices(heap: Global) -> Option<bool> {
    let mut session: Session<Shau, ByTurn> = quoting(heap, 90, LIMIT, ByTurn { start: 0 })?;
    let executed = [Ticks(100), Ticks(101)];
    let too_low = [Ticks(100), Ticks(0)];
    Some(
        is_at(session.standing(), Stage::Quoting, 0)
            && stands(session.quote(OPENED, 0, Ticks(80)), Stage::Quoting, 0)
            && refused(session.begin(BEGUN - 1, &Prices::Typed(&executed)), 23)
            && refused(session.begin(BEGUN, &Prices::Typed(&too_low)), 5)
            && refused(session.begin(BEGUN, &Prices::Typed(&[Ticks(1); 10_001])), 8)
            && stands(
                session.begin(BEGUN, &Prices::Typed(&executed)),
                Stage::Market,
                101,
            ),
    )
}

/// Plays the trials of this file.
// call by call: a table of the trials would be function pointers that are handed out
pub fn play(tally: &mut Tally) -> anyhow::Result<()> {
    tally.play(
        "a_refused_opening_hands_its_policy_back",
        a_refused_opening_hands_its_policy_back,
    )?;
    tally.play(
        "a_beginning_at_executed_prices",
        a_beginning_at_executed_prices,
    )
}
