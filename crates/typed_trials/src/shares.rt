//! How the Fixing Members share the excess of a fix.

use crate::expected::{fill, filled, stands, taken};
use crate::setup::{BEGUN, CLOSED, CUSTOMER, LIMIT, ROUND_OVER, book_of, free, market};
use crate::tally::Tally;
use contracts::shau::Shau;
use measures::Lots;
use rounds::sides::Side;
use rounds::stages::Stage;
use session::session::Session;
use sharing::by_turn::ByTurn;
use sharing::policy::SharingPolicy;
use sharing::table_order::TableOrder;
use std::alloc::Global;

/// Gold fixed at 100, after the customer alone tendered five lots: 5 × 100 × 60 = 30,000 fen. Three members share them.
fn fixed<P: SharingPolicy + Drop>(heap: Global, policy: P, side: Side) -> Option<Session<Shau, P>> {
    let mut session = market(heap, 100, LIMIT, policy)?;
    let mut book = book_of(heap, &[free(0), free(0), free(0), free(30_000)])?;
    let ready = taken(
        session.tender(&mut book, BEGUN, CUSTOMER, side, Lots(5)),
        0,
        5,
    ) && stands(session.close(&mut book, CLOSED), Stage::Supplementary, 100)
        && stands(session.close(&mut book, ROUND_OVER), Stage::Fixed, 100);
    ready.then_some(session)
}

/// Each place has a lot; the two extra ones go to places 2 and 0.
fn by_turn_from_2(heap: Global) -> Option<bool> {
    let bought = fixed(heap, ByTurn { start: 2 }, Side::Buy)?;
    let sold = fixed(heap, ByTurn { start: 2 }, Side::Sell)?;
    Some(
        filled(
            &bought,
            100,
            &[fill(0, 2), fill(0, 1), fill(0, 2), fill(5, 0)],
        ) && filled(
            &sold,
            100,
            &[fill(2, 0), fill(1, 0), fill(2, 0), fill(0, 5)],
        ),
    )
}

/// A start of 31 is place 31 mod 3 = 1: the extra lots go to places 1 and 2. One of 32 counts as 0: to places 0 and 1.
fn by_turn_from_31_and_32(heap: Global) -> Option<bool> {
    let last = fixed(heap, ByTurn { start: 31 }, Side::Buy)?;
    let past = fixed(heap, ByTurn { start: 32 }, Side::Buy)?;
    Some(
        filled(
            &last,
            100,
            &[fill(0, 1), fill(0, 2), fill(0, 2), fill(5, 0)],
        ) && filled(
            &past,
            100,
            &[fill(0, 2), fill(0, 2), fill(0, 1), fill(5, 0)],
        ),
    )
}

/// The extra lots go to places 0 and 1.
fn in_table_order(heap: Global) -> Option<bool> {
    let bought = fixed(heap, TableOrder, Side::Buy)?;
    let sold = fixed(heap, TableOrder, Side::Sell)?;
    Some(
        filled(
            &bought,
            100,
            &[fill(0, 2), fill(0, 2), fill(0, 1), fill(5, 0)],
        ) && filled(
            &sold,
            100,
            &[fill(2, 0), fill(2, 0), fill(1, 0), fill(0, 5)],
        ),
    )
}

/// Plays the trials of this file.
// call by call: a table of the trials would be function pointers that are handed out
pub fn play(tally: &mut Tally) -> anyhow::Result<()> {
    tally.play("by_turn_from_2", by_turn_from_2)?;
    tally.play("by_turn_from_31_and_32", by_turn_from_31_and_32)?;
    tally.play("in_table_order", in_table_order)
}
