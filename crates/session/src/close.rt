//! The end of a period: the price is fixed, supplementary tenders are asked for, the price moves, or the session halts.

ghost use Rattle.std.specs.Prelude.{◌≡◌, ◌<◌, ◌≤◌, true, IfOk, Ok, OnErr};
ghost use Rattle.books.specs.Accounts.{Accounts};
ghost use Rattle.rounds.specs.Moves.{moved_price, up_for, Beyond};
ghost use Rattle.rounds.specs.Stages.{is_market, is_supplementary};
ghost use Rattle.lines.specs.Lines.{imbalance, excess};
ghost use Rattle.session.specs.Closing.{close_move, market_outcome, move_outcome, supplementary_outcome, close_outcome};
ghost use Rattle.session.specs.Periods.{entered};
ghost use Rattle.session.specs.State.{view, came, Unchanged, with_period, standing_at};

use crate::session::Session;
use books::book::MarginBook;
use contracts::fixing::FixingContract;
use rounds::answers::Standing;
use rounds::faults::SessionFault;
use rounds::gates::check_ended;
use rounds::periods::{Excess, Move, Period};
use rounds::stages::Stage;
use rounds::times::TimeOfDay;
use sharing::policy::SharingPolicy;

/// No round comes after this one.
pub(crate) const LAST_ROUND: u32 = 64;

impl<C, P> Session<C, P> {
    /// Enters another stage of the same round, at the same price.
    // that a price is offered is asked where it is needed: it follows from the stages that a call belongs to
    pub(crate) fn turn_to(&mut self, stage: Stage, time: TimeOfDay) -> Standing
        requires { 1 ≤ self.old.period.price.0 }
        ensures answer { result ≡ standing_at (entered self.old.period stage time.ms) }
        ensures state { view self.new ≡ with_period (view self.old) (entered self.old.period stage time.ms) }
    {
        self.period = Period {
            stage,
            clock: time.ms,
            ..self.period
        };
        self.standing()
    }
}

impl<C: FixingContract, P: SharingPolicy> Session<C, P> {
    /// The move for the imbalance that remains: of a tick or more where that is above the threshold.
    fn next_move(&self) -> Move
        ensures value { result ≡ close_move C.step (view self.now) }
        ensures some { C.THRESHOLD.0 < imbalance (view self.now).lines → 1 ≤ result.size.0 }
    {
        let step = C::step_at(self.table.imbalance());
        Move::after(self.period.last, self.table.excess().moves_up(), step)
    }

    fn close_market(&mut self, time: TimeOfDay) -> Standing
        requires { 1 ≤ self.old.period.price.0 }
        ensures { (m : Accounts) → came (Ok result) (view self.new) m ≡ market_outcome P.share P.told (view self.old) m time.ms }
    {
        if self.table.imbalance().0 == 0 {
            return self.fix(time);
        }
        self.period = Period {
            stage: Stage::Supplementary,
            clock: time.ms,
            ends: time.ms + 10_000,
            excess: Excess {
                side: self.table.excess(),
                lots: self.table.imbalance(),
            },
            ..self.period
        };
        self.standing()
    }

    /// Moves the price and strikes the side of the excess, or halts.
    // `moved` is said at each step of the way to `close`, which says it to callers
    fn move_price<B: MarginBook>(
        &mut self,
        book: &mut B,
        time: TimeOfDay,
    ) -> Result<Standing, SessionFault>
        requires offered { 1 ≤ self.old.period.price.0 }
        requires beyond { C.THRESHOLD.0 < imbalance (view self.old).lines }
        ensures outcome { came result (view self.new) (B.means book.new) ≡ move_outcome C.MARGIN.0 (view self.old) (B.means book.old) time.ms (close_move C.step (view self.old)) (moved_price self.old.period.price.0 (close_move C.step (view self.old))) }
        ensures kept { OnErr result (Unchanged B.means self.old self.new book.old book.new) }
        ensures moved { IfOk result (λ s. is_market s.stage ≡ true → Beyond (up_for (excess (view self.old).lines)) self.old.period.price.0 s.price.0) }
    {
        let by = self.next_move();
        match by.from(self.period.price) {
            Some(price) if self.period.round < LAST_ROUND => {
                let period = Period {
                    stage: Stage::Market,
                    round: self.period.round + 1,
                    price,
                    clock: time.ms,
                    ends: time.ms + 30_000,
                    last: Some(by),
                    ..self.period
                };
                self.strike_into(book, by.strikes(), period)
            }
            _ => Ok(self.turn_to(Stage::Halted, time)),
        }
    }

    fn close_supplementary<B: MarginBook>(
        &mut self,
        book: &mut B,
        time: TimeOfDay,
    ) -> Result<Standing, SessionFault>
        requires { 1 ≤ self.old.period.price.0 }
        ensures outcome { came result (view self.new) (B.means book.new) ≡ supplementary_outcome C.MARGIN.0 C.THRESHOLD.0 C.step P.share P.told (view self.old) (B.means book.old) time.ms }
        ensures kept { OnErr result (Unchanged B.means self.old self.new book.old book.new) }
        ensures moved { IfOk result (λ s. is_market s.stage ≡ true → Beyond (up_for (excess (view self.old).lines)) self.old.period.price.0 s.price.0) }
    {
        if self.table.imbalance() <= C::THRESHOLD {
            return Ok(self.fix(time));
        }
        self.move_price(book, time)
    }

    /// Ends the period. A close of the supplementary period that opens the next round moves the price strictly, up after a
    /// buying excess and down after a selling one.
    pub fn close<B: MarginBook>(
        &mut self,
        book: &mut B,
        time: u32,
    ) -> Result<Standing, SessionFault>
        ensures outcome { came result (view self.new) (B.means book.new) ≡ close_outcome C.MARGIN.0 C.THRESHOLD.0 C.step P.share P.told (view self.old) (B.means book.old) time }
        ensures kept { OnErr result (Unchanged B.means self.old self.new book.old book.new) }
        ensures moved { IfOk result (λ s. is_market s.stage ≡ true → Beyond (up_for (excess (view self.old).lines)) self.old.period.price.0 s.price.0) }
    {
        let open = matches!(self.period.stage, Stage::Market | Stage::Supplementary);
        let time = self.period.admit(open, time)?;
        check_ended(self.period.ends, time.ms)?;
        match self.period.stage {
            Stage::Market => Ok(self.close_market(time)),
            _ => self.close_supplementary(book, time),
        }
    }
}
