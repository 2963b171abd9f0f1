//! The beginning of round 1, at the Initial Price.

ghost use Rattle.std.specs.Prelude.{◌≡◌, ◌≤◌, length, IfOk, OnErr};
ghost use Rattle.books.specs.Accounts.{Accounts};
ghost use Rattle.participants.specs.Participants.{seat_count};
ghost use Rattle.session.specs.Beginning.{begin_outcome};
ghost use Rattle.session.specs.Initial.{Prices, initial_price};
ghost use Rattle.session.specs.State.{view, came};

use crate::executed::{check_prices, executed_mean};
use crate::lists::{MOST_PRICES, PriceList};
use crate::session::Session;
use measures::Ticks;
use rounds::answers::Standing;
use rounds::faults::SessionFault;
use rounds::gates::check_ended;
use rounds::periods::Period;
use rounds::stages::Stage;

impl<C, P> Session<C, P> {
    /// The Initial Price: from the quotes, else from the executed prices, else the previous benchmark.
    fn initial_price<L: PriceList>(&self, executed: &L) -> Ticks
        requires few { length (L.prices executed.now) ≤ 10000 }
        requires priced { Prices (L.prices executed.now) }
        ensures value { result.0 ≡ initial_price (seat_count (view self.now).rows) (view self.now).quotes (L.prices executed.now) self.now.period.previous.0 }
        ensures within { (1 ≤ result.0) × (result.0 ≤ 10000000) }
    {
        match self.quotes.mean(self.participants.seats()) {
            Some(price) => price,
            None if executed.count() == 0 => self.period.previous,
            None => executed_mean(executed),
        }
    }

    /// Ends quoting and offers the Initial Price, in the market period of round 1. It is a price: 1 to 10,000,000 ticks.
    pub fn begin<L: PriceList>(&mut self, time: u32, executed: &L) -> Result<Standing, SessionFault>
        ensures outcome { (m : Accounts) → came result (view self.new) m ≡ begin_outcome (view self.old) m time (L.prices executed.now) }
        ensures kept { OnErr result (view self.new ≡ view self.old) }
        ensures offered { IfOk result (λ s. (1 ≤ s.price.0) × (s.price.0 ≤ 10000000)) }
    {
        if executed.count() > MOST_PRICES {
            return Err(SessionFault::TooManyPrices);
        }
        let quoting = self.period.stage == Stage::Quoting;
        let time = self.period.admit(quoting, time)?;
        check_ended(self.period.ends + 60_000, time.ms)?;
        check_prices(executed)?;
        let price = self.initial_price(executed);
        self.period = Period {
            stage: Stage::Market,
            round: 1,
            price,
            clock: time.ms,
            ends: time.ms + 60_000,
            last: None,
            ..self.period
        };
        Ok(self.standing())
    }
}
