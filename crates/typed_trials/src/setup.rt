//! Sessions and books that a trial begins with.

use crate::expected::stands;
use books::balance::Balance;
use books::bank_line::BankLine;
use books::book::MarginBook;
use books::record::AccountRecord;
use books::record_book::RecordBook;
use contracts::quoted::QuotedContract;
use contracts::shag::Shag;
use contracts::shau::Shau;
use measures::{Fen, Lots, Ticks};
use messages::prices::Prices;
use messages::rows::{OpenRow, Rows};
use rounds::answers::Tendered;
use rounds::faults::SessionFault;
use rounds::sides::Side;
use rounds::stages::Stage;
use session::session::Session;
use sharing::by_turn::ByTurn;
use sharing::table_order::TableOrder;
use std::alloc::Global;

/// When each session opens: in the morning.
pub const OPENED: u32 = 36_000_000;

/// When round 1 begins: 360,000 ms later.
pub const BEGUN: u32 = 36_360_000;

/// When the market period of round 1 is over and can be closed: 60,000 ms later.
pub const CLOSED: u32 = 36_420_000;

/// When a supplementary period is over that began at `CLOSED`: 10,000 ms later.
pub const ROUND_OVER: u32 = 36_430_000;

/// Three Fixing Members, and a customer of the first.
pub const ROSTER: [OpenRow; 4] = [
    OpenRow {
        kind: 1,
        carrier: 0,
        millions: 0,
    },
    OpenRow {
        kind: 1,
        carrier: 1,
        millions: 0,
    },
    OpenRow {
        kind: 1,
        carrier: 2,
        millions: 0,
    },
    OpenRow {
        kind: 4,
        carrier: 0,
        millions: 0,
    },
];

/// The row of the customer.
pub const CUSTOMER: u32 = 3;

/// How many lines a session has where a trial is not about them.
pub const LIMIT: usize = 16;

/// A session that was just opened. Without a quote and an executed price it will begin at `price`.
pub fn quoting<C, P: Drop>(
    heap: Global,
    price: u32,
    limit: usize,
    policy: P,
) -> Option<Session<C, P>> {
    Session::open(
        heap,
        OPENED,
        Ticks(price),
        &Rows::Typed(&ROSTER),
        limit,
        policy,
    )
    .ok()
}

/// A session in the market period of round 1.
pub fn market<C: Drop, P: Drop>(
    heap: Global,
    price: u32,
    limit: usize,
    policy: P,
) -> Option<Session<C, P>> {
    let mut session = quoting(heap, price, limit, policy)?;
    let begun = stands(
        session.begin(BEGUN, &Prices::Typed(&[])),
        Stage::Market,
        price,
    );
    begun.then_some(session)
}

/// Gold in the market period of round 1, shared by turn.
pub fn gold(heap: Global, price: u32) -> Option<Session<Shau, ByTurn>> {
    market(heap, price, LIMIT, ByTurn { start: 0 })
}

/// Silver in the market period of round 1, shared in table order.
pub fn silver(heap: Global, price: u32) -> Option<Session<Shag, TableOrder>> {
    market(heap, price, LIMIT, TableOrder)
}

/// A row buys or sells lots.
pub fn tender<C: QuotedContract, P, B: MarginBook>(
    side: Side,
    session: &mut Session<C, P>,
    book: &mut B,
    time: u32,
    row: u32,
    lots: u32,
) -> Result<Tendered, SessionFault> {
    session.tender(book, time, row, side, Lots(lots))
}

/// What an account holds.
pub fn held(free: u64, frozen: u64) -> Balance {
    Balance {
        free: Fen(free),
        frozen: Fen(frozen),
    }
}

/// An account with nothing frozen.
pub fn free(sum: u64) -> Balance {
    held(sum, 0)
}

/// A book of these accounts.
pub fn book_of<R: AccountRecord>(heap: Global, accounts: &[R]) -> Option<RecordBook<R>> {
    let accounts = accounts.to_vec(heap).ok()?;
    Some(RecordBook::new(accounts))
}

/// A bank's line, and what is drawn on it.
pub fn bank_line(line: u64, drawn: u64) -> BankLine {
    BankLine {
        line: Fen(line),
        drawn: Fen(drawn),
    }
}
