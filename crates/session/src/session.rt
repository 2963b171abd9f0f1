//! The record of one session.

ghost use Rattle.std.specs.Prelude.{◌≡◌, length, take};
ghost use Rattle.participants.specs.Named.{prices_of};
ghost use Rattle.participants.specs.Rosters.{rows_of};
ghost use Rattle.lines.specs.Entries.{width_of};
ghost use Rattle.lines.specs.Fills.{Level};
ghost use Rattle.session.specs.Periods.{Lawful};

use lines::fills::Fill;
use lines::table::LineTable;
use participants::quotes::Quotes;
use participants::table::{MOST_ROWS, Participants};
use rounds::periods::Period;
use std::marker::PhantomData;

/// A session of the contract `C`, whose excess is shared by the policy `P`. It owns its tables, all made at the opening;
/// the margin book is lent to each call that needs it, since another session may stand over the same book.
#[derive(Drop)]
pub struct Session<C, P> {
    // three tables by row and not one of rows: each keeps to bounds of its own, and the sheet lends the fills as they lie
    pub(crate) participants: Participants,
    pub(crate) quotes: Quotes,
    pub(crate) table: LineTable,
    /// What the fix gave each row; nothing before it.
    // room for the most rows there can be: a fix replaces it whole and takes no memory
    pub(crate) fills: [Fill; MOST_ROWS],
    pub(crate) period: Period,
    pub(crate) policy: P,
    pub(crate) contract: PhantomData<C>,
    ghost quoted: { length (prices_of quotes) ≡ length (rows_of participants) },
    ghost tied: { width_of table ≡ length (rows_of participants) },
    ghost level: { Level (take (length (rows_of participants)) fills) },
    ghost lawful: { Lawful period },
}
