//! What is entered in the line table, and what the table answers.

ghost use Rattle.std.specs.Prelude.{◌≡◌, ◌<◌, ◌≤◌, true, [], ◌∷◌, ◌++◌, map, length, IfSome, IfOk, if◌then◌else◌, Some, None, vec_len, vec_capacity, OnOk, slice_index_or, slice_set};
ghost use Rattle.rounds.specs.Memory.{Refuses};
ghost use Rattle.lines.specs.Entries.{lines_of, limit_of, width_of, SameRoom, limit_fits, used_up, holds, line_at};
ghost use Rattle.lines.specs.Lines.{lawful_line, struck, no_line, reduced, imbalance, excess};
ghost use Rattle.participants.specs.Rosters.{rows_of};

use crate::line::Line;
use crate::table::LineTable;
use measures::Lots;
use participants::table::Participants;
use rounds::faults::SessionFault;
use rounds::gates::HIGHEST_PRICE;
use rounds::sides::{Side, Struck};
use std::alloc::Global;

/// The most lines of a table.
const MOST_LINES: usize = 4_096;

/// The most lots of a line: the largest tender of any contract.
const MOST_LOTS: u32 = 40_000;

/// That a line table can have such a limit.
pub fn check_limit(limit: usize) -> Result<(), SessionFault>
    ensures answer { result ≡ limit_fits limit }
    ensures within { OnOk result (limit ≤ 4096) }
{
    if !(1..=MOST_LINES).contains(&limit) {
        return Err(SessionFault::LineLimit);
    }
    Ok(())
}

impl Line {
    /// The line with lots taken off, as many as it has.
    fn less(self, lots: Lots) -> Line
        ensures { result ≡ reduced self lots.0 }
    {
        Line {
            lots: Lots(self.lots.0.saturating_sub(lots.0)),
            ..self
        }
    }
}

impl LineTable {
    /// An empty table for the lines of some participants, with room for all of them.
    pub fn new(
        heap: Global,
        limit: usize,
        participants: &Participants,
    ) -> Result<LineTable, SessionFault>
        ensures lines { IfOk result (λ t. lines_of t ≡ []) }
        ensures limit { IfOk result (λ t. limit_of t ≡ limit) }
        ensures rows { IfOk result (λ t. width_of t ≡ length (rows_of participants.now)) }
        ensures fault { Refuses (limit_fits limit) result }
    {
        check_limit(limit)?;
        Ok(LineTable {
            lines: Vec::with_capacity(heap, limit)?,
            limit,
            rows: participants.count(),
            buys: Lots(0),
            sells: Lots(0),
        })
    }

    /// Whether there is no room for another line.
    pub fn is_used_up(&self) -> bool
        ensures { result ≡ used_up self.now }
    {
        self.lines.len() >= self.limit
    }

    /// Whether a line keeps to its bounds.
    fn bears(&self, line: &Line) -> bool
        ensures { result ≡ lawful_line (width_of self.now) line.now }
    {
        line.lots.0 <= MOST_LOTS && line.price.0 <= HIGHEST_PRICE && (line.row as usize) < self.rows
    }

    /// Adds a line, for which there is room, and counts its lots.
    // always inlined, as what enters and reduces a line: a tender is some 70 instructions, and calls on the way double its time
    #[inline(always)]
    fn add(&mut self, line: Line)
        requires room { vec_len self.old.lines < self.old.limit }
        requires sound { lawful_line self.old.rows line ≡ true }
        ensures lines { lines_of self.new ≡ lines_of self.old ++ line ∷ [] }
        ensures room { SameRoom self.old self.new }
    {
        self.buys = Lots(self.buys.0 + line.lots_on(Side::Buy).0);
        self.sells = Lots(self.sells.0 + line.lots_on(Side::Sell).0);
        self.lines.push_reserved(line);
    }

    /// Enters a line and gives its number; nothing if the table cannot hold it.
    #[inline(always)]
    pub fn enter(&mut self, line: Line) -> Option<u32>
        ensures number { result ≡ (if holds self.old line then Some (length (lines_of self.old)) else None) }
        ensures lines { lines_of self.new ≡ (if holds self.old line then lines_of self.old ++ line ∷ [] else lines_of self.old) }
        ensures room { SameRoom self.old self.new }
    {
        if self.is_used_up() || !self.bears(&line) {
            return None;
        }
        let number = self.lines.len() as u32;
        self.add(line);
        Some(number)
    }

    /// The line of a number, if it was made.
    pub fn line(&self, number: u32) -> Option<Line>
        ensures value { result ≡ line_at (lines_of self.now) number }
        ensures within { IfSome result (λ l. (l.lots.0 ≤ 40000) × (l.price.0 ≤ 10000000)) }
    {
        self.lines.get(number as usize).copied()
    }

    /// Takes lots off a line that was made.
    #[inline(always)]
    fn take_off(&mut self, line: usize, lots: Lots)
        requires { line < vec_len self.old.lines }
        ensures lines { lines_of self.new ≡ slice_set (lines_of self.old) line (reduced (slice_index_or (lines_of self.old) line no_line) lots.0) }
        ensures room { SameRoom self.old self.new }
    {
        let old = self.lines[line];
        let new = old.less(lots);
        self.buys = Lots(self.buys.0 - old.lots_on(Side::Buy).0 + new.lots_on(Side::Buy).0);
        self.sells = Lots(self.sells.0 - old.lots_on(Side::Sell).0 + new.lots_on(Side::Sell).0);
        self.lines[line] = new;
    }

    /// Takes lots off a line, as many as it has; one that was not made has none.
    #[inline(always)]
    pub fn reduce(&mut self, line: u32, lots: Lots)
        ensures lines { lines_of self.new ≡ slice_set (lines_of self.old) line (reduced (slice_index_or (lines_of self.old) line no_line) lots.0) }
        ensures room { SameRoom self.old self.new }
    {
        if (line as usize) < self.lines.len() {
            self.take_off(line as usize, lots);
        }
    }

    /// How many lots one side stands above the other.
    pub fn imbalance(&self) -> Lots
        ensures value { result.0 ≡ imbalance (lines_of self.now) }
        ensures bound { result.0 ≤ 163840000 }
    {
        self.buys.apart(self.sells)
    }

    /// The side that stands above the other.
    pub fn excess(&self) -> Side
        ensures { result ≡ excess (lines_of self.now) }
    {
        if self.buys > self.sells {
            Side::Buy
        } else {
            Side::Sell
        }
    }
}
