//! The opening of a session: everything that it will ever need is made here.

ghost use Rattle.std.specs.Prelude.{◌≡◌, ◌≤◌, [], length, replicate, IfOk, IfErr, None, OnOk};
ghost use Rattle.rounds.specs.Memory.{Refuses};
ghost use Rattle.participants.specs.Named.{prices_of};
ghost use Rattle.participants.specs.Rosters.{rows_of, enrolled};
ghost use Rattle.lines.specs.Entries.{lines_of, limit_of, width_of};
ghost use Rattle.session.specs.Opening.{open_check, opened, in_table_order, fault_of};
ghost use Rattle.session.specs.Periods.{quoting_ends};
ghost use Rattle.session.specs.State.{view};

use crate::session::Session;
use lines::entries::check_limit;
use lines::fills::Fill;
use lines::table::LineTable;
use measures::{Lots, Ticks};
use participants::quotes::Quotes;
use participants::roster::Roster;
use participants::table::{MOST_ROWS, Participants};
use rounds::faults::SessionFault;
use rounds::gates::check_price;
use rounds::periods::{Excess, Period};
use rounds::sides::Side;
use rounds::stages::Stage;
use rounds::times::TimeOfDay;
use sharing::table_order::TableOrder;
use std::alloc::Global;
use std::marker::PhantomData;

/// A refused opening hands the policy back.
#[derive(Drop)]
pub struct RefusedOpening<P> {
    pub fault: SessionFault,
    pub policy: P,
}

/// The tables of a session, before it is one.
struct Tables {
    time: TimeOfDay,
    participants: Participants,
    quotes: Quotes,
    lines: LineTable,
}

/// All that an opening asks and, if nothing is wrong, all the room that a session needs.
fn make_tables<R: Roster>(
    heap: Global,
    time: u32,
    previous: Ticks,
    roster: &R,
    limit: usize,
) -> Result<Tables, SessionFault>
    ensures fault { Refuses (open_check (R.listed roster.now) time previous.0 limit) result }
    ensures same { IfOk result (λ t. t.time.ms ≡ time) }
    ensures price { OnOk result ((1 ≤ previous.0) × (previous.0 ≤ 10000000)) }
    ensures rows { IfOk result (λ t. rows_of t.participants ≡ enrolled (R.listed roster.now)) }
    ensures quotes { IfOk result (λ t. prices_of t.quotes ≡ replicate (length (rows_of t.participants)) None) }
    ensures lines { IfOk result (λ t. lines_of t.lines ≡ []) }
    ensures limit { IfOk result (λ t. limit_of t.lines ≡ limit) }
    ensures width { IfOk result (λ t. width_of t.lines ≡ length (rows_of t.participants)) }
{
    let time = TimeOfDay::try_from(time)?;
    check_price(previous, 0)?;
    check_limit(limit)?;
    let participants = Participants::of(heap, roster)?;
    let quotes = Quotes::new(heap, &participants)?;
    let lines = LineTable::new(heap, limit, &participants)?;
    Ok(Tables {
        time,
        participants,
        quotes,
        lines,
    })
}

/// When quoting is over: 300,000 ms after an opening before noon, 240,000 after a later one.
fn quoting_ends(time: TimeOfDay) -> u32
    ensures value { result ≡ quoting_ends time.ms }
    ensures bound { result ≤ 86700000 }
{
    let lasts = if time.ms < 43_200_000 {
        300_000
    } else {
        240_000
    };
    time.ms + lasts
}

impl<C, P> Session<C, P> {
    /// Opens a session with room for `limit` lines; the excess of its fix is shared by `policy`.
    // the figures stay apart: of one record that lends the roster each clause would say which moment it means
    pub fn open<R: Roster>(
        heap: Global,
        time: u32,
        previous: Ticks,
        roster: &R,
        limit: usize,
        policy: P,
    ) -> Result<Session<C, P>, RefusedOpening<P>>
        ensures opened { IfOk result (λ s. view s ≡ opened (R.listed roster.now) time previous limit policy) }
        ensures fault { Refuses (open_check (R.listed roster.now) time previous.0 limit) (fault_of result) }
        ensures policy { IfErr result (λ e. e.policy ≡ policy) }
    {
        match make_tables(heap, time, previous, roster, limit) {
            Err(fault) => Err(RefusedOpening { fault, policy }),
            Ok(
                Tables {
                    time,
                    participants,
                    quotes,
                    lines,
                },
            ) => Ok(Session {
                participants,
                quotes,
                table: lines,
                fills: [Fill {
                    bought: Lots(0),
                    sold: Lots(0),
                }; MOST_ROWS],
                period: Period {
                    stage: Stage::Quoting,
                    round: 0,
                    price: Ticks(0),
                    previous,
                    clock: time.ms,
                    ends: quoting_ends(time),
                    last: None,
                    excess: Excess {
                        side: Side::Buy,
                        lots: Lots(0),
                    },
                },
                policy,
                contract: PhantomData,
            }),
        }
    }
}

impl<C> Session<C, TableOrder> {
    /// Opens a session with no policy named: the excess is shared in table order.
    pub fn open_in_table_order<R: Roster>(
        heap: Global,
        time: u32,
        previous: Ticks,
        roster: &R,
        limit: usize,
    ) -> Result<Session<C, TableOrder>, SessionFault>
        ensures opened { IfOk result (λ s. view s ≡ opened (R.listed roster.now) time previous limit in_table_order) }
        ensures fault { Refuses (open_check (R.listed roster.now) time previous.0 limit) result }
    {
        Session::open(heap, time, previous, roster, limit, TableOrder).map_err(
            |refused| refused.fault,
        )
    }
}
