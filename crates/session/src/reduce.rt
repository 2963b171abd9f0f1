//! Taking lots off a line of the present round.

ghost use Rattle.std.specs.Prelude.{◌≡◌, ◌≤◌, IfOk, OnErr, OnOk};
ghost use Rattle.session.specs.Reductions.{own_line, row_line, reduce_outcome};
ghost use Rattle.session.specs.State.{view, came, Unchanged};

use crate::session::Session;
use books::book::MarginBook;
use contracts::quoted::QuotedContract;
use lines::line::Line;
use lines::margins::margin_of;
use measures::Lots;
use rounds::answers::Standing;
use rounds::faults::SessionFault;
use rounds::gates::{check_in_time, check_lots};
use rounds::stages::Stage;

impl<C: QuotedContract, P> Session<C, P> {
    /// A row's own line of the present round, which has as many lots.
    fn own_line(&self, row: u32, line: u32, lots: Lots) -> Result<Line, SessionFault>
        ensures answer { result ≡ own_line (view self.now) row line lots.0 }
        ensures price { IfOk result (λ l. l.price.0 ≤ 10000000) }
    {
        let made = self.table.line(line).ok_or(SessionFault::NoSuchLine)?;
        if made.row != row {
            return Err(SessionFault::NoSuchLine);
        }
        if made.round != self.period.round {
            return Err(SessionFault::EarlierRound);
        }
        if made.lots < lots {
            return Err(SessionFault::FewerLots);
        }
        Ok(made)
    }

    /// The line that a row's lots come off, while they can.
    fn reducible(&self, row: u32, line: u32, lots: Lots) -> Result<Line, SessionFault>
        ensures answer { result ≡ row_line C.LARGEST.0 (view self.now) row line lots.0 }
        ensures lots { OnOk result (lots.0 ≤ 40000) }
        ensures price { IfOk result (λ l. l.price.0 ≤ 10000000) }
    {
        self.participants.kind(row)?;
        check_lots(lots, C::LARGEST)?;
        self.own_line(row, line, lots)
    }

    /// Takes lots off a row's own line, and releases their margin at the price they were tendered at.
    #[inline]
    pub fn reduce<B: MarginBook>(
        &mut self,
        book: &mut B,
        time: u32,
        row: u32,
        line: u32,
        lots: Lots,
    ) -> Result<Standing, SessionFault>
        ensures outcome { came result (view self.new) (B.means book.new) ≡ reduce_outcome C.MARGIN.0 C.LARGEST.0 (view self.old) (B.means book.old) time row line lots.0 }
        ensures kept { OnErr result (Unchanged B.means self.old self.new book.old book.new) }
    {
        let open = self.period.stage == Stage::Market;
        let time = self.period.admit(open, time)?;
        check_in_time(self.period.ends, time.ms)?;
        let tendered = self.reducible(row, line, lots)?;
        book.release(row, margin_of::<C>(lots, tendered.price))?;
        self.table.reduce(line, lots);
        self.period.clock = time.ms;
        Ok(self.standing())
    }
}
