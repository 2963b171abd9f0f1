//! Striking lines: their margin is released at the price they were tendered at.

ghost use Rattle.std.specs.Prelude.{◌≡◌, ℕ, ◌<◌, ◌≤◌, true, false, map, length, vec_capacity, OnErr, OnOk};
ghost use Rattle.books.specs.Accounts.{released_at};
ghost use Rattle.rounds.specs.Sides.{hits};
ghost use Rattle.rounds.specs.declared.sides.Side.{Side};
ghost use Rattle.sharing.specs.Shares.{below};
ghost use Rattle.lines.specs.Entries.{lines_of, width_of, SameRoom};
ghost use Rattle.lines.specs.Lines.{lawful, line_due, due_to, struck, standing};
ghost use Rattle.lines.specs.Striking.{due_in, covers, covers_all, released_all, strike_check, struck_accounts, struck_margin};

use crate::line::Line;
use crate::margins::margin_of;
use crate::table::LineTable;
use books::book::MarginBook;
use books::faults::BookFault;
use contracts::quoted::QuotedContract;
use measures::{Fen, Lots};
use participants::table::MOST_ROWS;
use rounds::sides::{Side, Struck};

impl Line {
    /// What striking releases of this line.
    fn due<C: QuotedContract>(&self, which: Struck) -> Fen
        requires lots { self.now.lots.0 ≤ 40000 }
        requires price { self.now.price.0 ≤ 10000000 }
        ensures { result.0 ≡ line_due C.MARGIN.0 which self.now }
    {
        let lots = if which.hits(self.side) {
            self.lots
        } else {
            Lots(0)
        };
        margin_of::<C>(lots, self.price)
    }

    /// Sets the lots to none if the line is struck.
    fn strike(&mut self, which: Struck)
        ensures { self.new ≡ struck which self.old }
    {
        self.lots = which.leaves(self.side, self.lots);
    }
}

/// Sums up, in one pass over the lines, what striking releases to each row.
// room for the most rows there can be, since a call takes no memory
fn sum_dues<C: QuotedContract>(lines: &[Line], which: Struck) -> [Fen; MOST_ROWS]
    requires few { length lines.now ≤ 4096 }
    requires sound { lawful 256 lines.now ≡ true }
    ensures { (k : ℕ) → k < 256 → due_in result k ≡ due_to C.MARGIN.0 which lines.now k }
{
    let mut dues = [Fen(0); MOST_ROWS];
    for line in lines {
        let row = line.row as usize;
        let due = line.due::<C>(which);
        dues[row] = Fen(dues[row].0 + due.0);
    }
    dues
}

/// That an account has enough frozen for what it is due; nothing due is not asked for.
fn check_due<B: MarginBook>(book: &B, account: u32, due: Fen) -> Result<(), BookFault>
    ensures { result ≡ covers (B.means book.now account) due.0 }
{
    if due == Fen(0) {
        return Ok(());
    }
    let held = book.balance(account).ok_or(BookFault::Unknown)?;
    if held.frozen < due {
        return Err(BookFault::Short);
    }
    Ok(())
}

/// That the account of each row has enough frozen for what it is due, rows in order.
fn check_dues<B: MarginBook>(book: &B, dues: &[Fen]) -> Result<(), BookFault>
    requires { length dues.now ≤ 256 }
    ensures { result ≡ covers_all (B.means book.now) (due_in dues.now) (length dues.now) }
{
    for (row, due) in dues.iter().enumerate() {
        check_due(book, row as u32, *due)?;
    }
    Ok(())
}

/// Releases to an account what it is due; nothing due is not asked for.
fn give_back<B: MarginBook>(book: &mut B, account: u32, due: Fen)
    ensures { B.means book.new ≡ released_at (B.means book.old) account due.0 }
{
    if due.0 == 0 {
        return;
    }
    // the book was asked for all that is due before, so it refuses nothing
    let _ = book.release(account, due);
}

/// Releases to the account of each row what it is due.
fn release_dues<B: MarginBook>(book: &mut B, dues: &[Fen])
    requires { length dues.now ≤ 256 }
    ensures { B.means book.new ≡ released_all (B.means book.old) (due_in dues.now) (length dues.now) }
{
    for (row, due) in dues.iter().enumerate() {
        give_back(book, row as u32, *due);
    }
}

/// Strikes each line of a list.
fn strike_lines(lines: &mut Vec<Line>, which: Struck)
    ensures items { lines.new.items ≡ map (struck which) lines.old.items }
    ensures capacity { vec_capacity lines.new ≡ vec_capacity lines.old }
{
    for line in lines.iter_mut() {
        line.strike(which);
    }
}

impl LineTable {
    /// What striking releases to each row.
    fn dues<C: QuotedContract>(&self, which: Struck) -> [Fen; MOST_ROWS]
        ensures { (k : ℕ) → k < width_of self.now → due_in result k ≡ due_to C.MARGIN.0 which (lines_of self.now) k }
    {
        sum_dues::<C>(self.lines.as_slice(), which)
    }

    /// Releases what striking releases, after the book was asked for all of it, rows in order.
    fn release<C: QuotedContract, B: MarginBook>(
        &self,
        book: &mut B,
        which: Struck,
    ) -> Result<(), BookFault>
        ensures answer { result ≡ strike_check C.MARGIN.0 (width_of self.now) (lines_of self.now) (B.means book.old) which }
        ensures after { OnOk result (B.means book.new ≡ struck_accounts C.MARGIN.0 (width_of self.now) (lines_of self.now) (B.means book.old) which) }
        ensures kept { OnErr result (B.means book.new ≡ B.means book.old) }
    {
        let sums = self.dues::<C>(which);
        let dues = &sums[..self.rows];
        check_dues(book, dues)?;
        release_dues(book, dues);
        Ok(())
    }

    /// Sets the lots of the struck lines to none, and with them those of their side.
    fn clear(&mut self, which: Struck)
        ensures lines { lines_of self.new ≡ map (struck which) (lines_of self.old) }
        ensures room { SameRoom self.old self.new }
    {
        strike_lines(&mut self.lines, which);
        self.buys = which.leaves(Side::Buy, self.buys);
        self.sells = which.leaves(Side::Sell, self.sells);
    }

    /// Strikes lines: their lots stand no more, and the book releases their margin, a sum a row. A refusal of the book
    /// changes nothing. Of a side that is struck no lots stand, and the other side stands as before; the sums together are
    /// the margin of what was struck.
    pub fn strike<C: QuotedContract, B: MarginBook>(
        &mut self,
        book: &mut B,
        which: Struck,
    ) -> Result<(), BookFault>
        ensures answer { result ≡ strike_check C.MARGIN.0 (width_of self.old) (lines_of self.old) (B.means book.old) which }
        ensures lines { OnOk result (lines_of self.new ≡ map (struck which) (lines_of self.old)) }
        ensures accounts { OnOk result (B.means book.new ≡ struck_accounts C.MARGIN.0 (width_of self.old) (lines_of self.old) (B.means book.old) which) }
        ensures kept { OnErr result ((lines_of self.new ≡ lines_of self.old) × (B.means book.new ≡ B.means book.old)) }
        ensures room { SameRoom self.old self.new }
        ensures none { OnOk result ((side : Side) → hits which side ≡ true → standing side (lines_of self.new) ≡ 0) }
        ensures rest { OnOk result ((side : Side) → hits which side ≡ false → standing side (lines_of self.new) ≡ standing side (lines_of self.old)) }
        ensures whole { below (width_of self.old) (due_to C.MARGIN.0 which (lines_of self.old)) ≡ struck_margin C.MARGIN.0 (lines_of self.old) which }
    {
        self.release::<C, B>(book, which)?;
        self.clear(which);
        Ok(())
    }
}
