//! Suspension, and the two measures that end it.

ghost use Rattle.std.specs.Prelude.{◌≡◌, IfErr, OnErr};
ghost use Rattle.books.specs.Accounts.{Accounts};
ghost use Rattle.session.specs.Measures.{suspend_outcome, reissue_outcome, announce_outcome};
ghost use Rattle.session.specs.Orders.{with_order, without_order};
ghost use Rattle.session.specs.State.{view, came, Unchanged};

use crate::close::LAST_ROUND;
use crate::orders::{RefusedMeasure, SuspensionOrder};
use crate::session::Session;
use books::book::MarginBook;
use contracts::quoted::QuotedContract;
use measures::Ticks;
use rounds::answers::Standing;
use rounds::faults::SessionFault;
use rounds::gates::check_price;
use rounds::periods::Period;
use rounds::sides::Struck;
use rounds::stages::Stage;

impl<C, P> Session<C, P> {
    /// Suspends the session, and hands out the order that a measure takes back.
    pub fn suspend(&mut self, time: u32) -> Result<(Standing, SuspensionOrder), SessionFault>
        ensures outcome { (m : Accounts) → came (without_order result) (view self.new) m ≡ suspend_outcome (view self.old) m time }
        ensures kept { OnErr result (view self.new ≡ view self.old) }
    {
        let running = matches!(
            self.period.stage,
            Stage::Market | Stage::Supplementary | Stage::Halted
        );
        let time = self.period.admit(running, time)?;
        let standing = self.turn_to(Stage::Suspended, time);
        Ok((standing, SuspensionOrder::new(self.period.round)))
    }
}

impl<C: QuotedContract, P> Session<C, P> {
    fn reissue<B: MarginBook>(
        &mut self,
        book: &mut B,
        time: u32,
        price: Ticks,
    ) -> Result<Standing, SessionFault>
        ensures outcome { came result (view self.new) (B.means book.new) ≡ reissue_outcome C.MARGIN.0 (view self.old) (B.means book.old) time price }
        ensures kept { OnErr result (Unchanged B.means self.old self.new book.old book.new) }
    {
        let suspended = self.period.stage == Stage::Suspended;
        let time = self.period.admit(suspended, time)?;
        check_price(price, 0)?;
        if self.period.round >= LAST_ROUND {
            return Err(SessionFault::LastRound);
        }
        let period = Period {
            stage: Stage::Market,
            round: self.period.round + 1,
            price,
            clock: time.ms,
            ends: time.ms + 60_000,
            last: None,
            ..self.period
        };
        self.strike_into(book, Struck::All, period)
    }

    fn announce<B: MarginBook>(
        &mut self,
        book: &mut B,
        time: u32,
        price: Ticks,
    ) -> Result<Standing, SessionFault>
        ensures outcome { came result (view self.new) (B.means book.new) ≡ announce_outcome C.MARGIN.0 (view self.old) (B.means book.old) time price }
        ensures kept { OnErr result (Unchanged B.means self.old self.new book.old book.new) }
    {
        let suspended = self.period.stage == Stage::Suspended;
        let time = self.period.admit(suspended, time)?;
        check_price(price, 0)?;
        let period = Period {
            stage: Stage::Announced,
            price,
            clock: time.ms,
            ..self.period
        };
        self.strike_into(book, Struck::All, period)
    }
}

impl SuspensionOrder {
    /// Strikes all lines and starts a new round at a price that the exchange sets. A refusal hands the order back.
    pub fn reissue<C: QuotedContract, P, B: MarginBook>(
        self,
        session: &mut Session<C, P>,
        book: &mut B,
        time: u32,
        price: Ticks,
    ) -> Result<Standing, RefusedMeasure>
        ensures outcome { came (with_order result) (view session.new) (B.means book.new) ≡ reissue_outcome C.MARGIN.0 (view session.old) (B.means book.old) time price }
        ensures kept { OnErr result (Unchanged B.means session.old session.new book.old book.new) }
        ensures order { IfErr result (λ e. e.order ≡ self) }
    {
        self.settle(session.reissue(book, time, price))
    }

    /// Strikes all lines and sets the benchmark; nothing is filled. A refusal hands the order back.
    // beside `reissue` and not one with it: each is a line, and its contract names its own outcome
    pub fn announce<C: QuotedContract, P, B: MarginBook>(
        self,
        session: &mut Session<C, P>,
        book: &mut B,
        time: u32,
        price: Ticks,
    ) -> Result<Standing, RefusedMeasure>
        ensures outcome { came (with_order result) (view session.new) (B.means book.new) ≡ announce_outcome C.MARGIN.0 (view session.old) (B.means book.old) time price }
        ensures kept { OnErr result (Unchanged B.means session.old session.new book.old book.new) }
        ensures order { IfErr result (λ e. e.order ≡ self) }
    {
        self.settle(session.announce(book, time, price))
    }
}
