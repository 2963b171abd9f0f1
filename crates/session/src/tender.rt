//! Buying and selling, in the market period and against the excess.

ghost use Rattle.std.specs.Prelude.{◌≡◌, ◌<◌, ◌≤◌, false, length, IfOk, OnErr, OnOk};
ghost use Rattle.rounds.specs.Stages.{is_market};
ghost use Rattle.lines.specs.Lines.{imbalance};
ghost use Rattle.session.specs.State.{view, came, Unchanged};
ghost use Rattle.session.specs.Tenders.{room_check, excess_lots, supplementary_lots, row_lots, tendered, tender_outcome};

use crate::session::Session;
use books::book::MarginBook;
use contracts::quoted::QuotedContract;
use lines::line::Line;
use lines::margins::margin_of;
use measures::Lots;
use participants::kinds::Kind;
use rounds::answers::Tendered;
use rounds::faults::SessionFault;
use rounds::gates::{check_in_time, check_lots};
use rounds::sides::Side;
use rounds::stages::Stage;
use rounds::times::TimeOfDay;

impl<C: QuotedContract, P> Session<C, P> {
    /// That there is room for another line.
    fn check_room(&self) -> Result<(), SessionFault>
        ensures answer { result ≡ room_check (view self.now) }
        ensures room { OnOk result (length (view self.now).lines < (view self.now).limit) }
    {
        if self.table.is_used_up() {
            return Err(SessionFault::LinesUsedUp);
        }
        Ok(())
    }

    /// What is taken of a supplementary tender: it goes against the excess, and is cut to what remains of it.
    fn excess_lots(&self, side: Side, lots: Lots) -> Result<Lots, SessionFault>
        ensures answer { result ≡ excess_lots (view self.now) side lots.0 }
        ensures some { IfOk result (λ n. (1 ≤ lots.0 → 1 ≤ n.0) × (n.0 ≤ lots.0)) }
        ensures cut { IfOk result (λ n. n.0 ≤ imbalance (view self.now).lines) }
    {
        if side != self.period.excess.side.other() {
            return Err(SessionFault::WrongSide);
        }
        let remaining = self.table.imbalance();
        if remaining.0 == 0 {
            return Err(SessionFault::NothingRemains);
        }
        Ok(lots.min(remaining))
    }

    fn supplementary_lots(&self, kind: Kind, side: Side, lots: Lots) -> Result<Lots, SessionFault>
        ensures answer { result ≡ supplementary_lots C.LARGEST.0 (view self.now) kind side lots.0 }
        ensures some { IfOk result (λ n. (1 ≤ n.0) × (n.0 ≤ lots.0)) }
        ensures most { OnOk result (lots.0 ≤ 40000) }
        ensures cut { IfOk result (λ n. n.0 ≤ imbalance (view self.now).lines) }
    {
        if !kind.is_fixing() {
            return Err(SessionFault::WrongKind);
        }
        check_lots(lots, C::LARGEST)?;
        self.excess_lots(side, lots)
    }

    /// What is taken of a row's tender, while tenders are taken.
    fn row_lots(&self, row: u32, side: Side, lots: Lots) -> Result<Lots, SessionFault>
        ensures answer { result ≡ row_lots C.LARGEST.0 (view self.now) row side lots.0 }
        ensures row { OnOk result (row < length (view self.now).rows) }
        ensures some { IfOk result (λ n. (1 ≤ n.0) × (n.0 ≤ lots.0) × (n.0 ≤ 40000)) }
        ensures cut { IfOk result (λ n. is_market (view self.now).period.stage ≡ false → n.0 ≤ imbalance (view self.now).lines) }
    {
        let kind = self.participants.kind(row)?;
        match self.period.stage {
            Stage::Market => {
                check_lots(lots, C::LARGEST)?;
                Ok(lots)
            }
            _ => self.supplementary_lots(kind, side, lots),
        }
    }

    /// Makes the line of an accepted tender, for which there is room.
    // always inlined, as what the table does of it
    #[inline(always)]
    fn enter(&mut self, time: TimeOfDay, row: u32, side: Side, taken: Lots) -> Tendered
        requires lots { taken.0 ≤ 40000 }
        requires row { row < length (view self.old).rows }
        requires room { length (view self.old).lines < (view self.old).limit }
        ensures answer { result ≡ record { line = length (view self.old).lines; lots = taken } }
        ensures state { view self.new ≡ tendered (view self.old) time.ms row side taken.0 }
    {
        let line = self
            .table
            .enter(Line {
                row,
                side,
                lots: taken,
                price: self.period.price,
                round: self.period.round,
            })
            .unwrap();
        self.period.clock = time.ms;
        Tendered { line, lots: taken }
    }

    /// Takes a tender: a line of the lots taken, whose margin the book freezes. Taken is a lot or more, never more than was
    /// tendered and, in the supplementary period, never more than what remains of the imbalance.
    #[inline]
    pub fn tender<B: MarginBook>(
        &mut self,
        book: &mut B,
        time: u32,
        row: u32,
        side: Side,
        lots: Lots,
    ) -> Result<Tendered, SessionFault>
        ensures outcome { came result (view self.new) (B.means book.new) ≡ tender_outcome C.MARGIN.0 C.LARGEST.0 (view self.old) (B.means book.old) time row side lots.0 }
        ensures kept { OnErr result (Unchanged B.means self.old self.new book.old book.new) }
        ensures some { IfOk result (λ t. (1 ≤ t.lots.0) × (t.lots.0 ≤ lots.0)) }
        ensures cut { IfOk result (λ t. is_market (view self.old).period.stage ≡ false → t.lots.0 ≤ imbalance (view self.old).lines) }
    {
        let open = matches!(self.period.stage, Stage::Market | Stage::Supplementary);
        let time = self.period.admit(open, time)?;
        check_in_time(self.period.ends, time.ms)?;
        let taken = self.row_lots(row, side, lots)?;
        self.check_room()?;
        book.freeze(row, margin_of::<C>(taken, self.period.price))?;
        Ok(self.enter(time, row, side, taken))
    }
}
