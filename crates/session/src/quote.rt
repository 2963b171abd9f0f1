//! A quoting seat names its reference price.

ghost use Rattle.std.specs.Prelude.{◌≡◌, OnErr};
ghost use Rattle.books.specs.Accounts.{Accounts};
ghost use Rattle.session.specs.Quoting.{quote_outcome};
ghost use Rattle.session.specs.State.{view, came};

use crate::session::Session;
use measures::Ticks;
use rounds::answers::Standing;
use rounds::faults::SessionFault;
use rounds::gates::check_in_time;
use rounds::stages::Stage;

impl<C, P> Session<C, P> {
    /// Takes a seat's price; a later one replaces it.
    pub fn quote(&mut self, time: u32, row: u32, price: Ticks) -> Result<Standing, SessionFault>
        ensures outcome { (m : Accounts) → came result (view self.new) m ≡ quote_outcome (view self.old) m time row price.0 }
        ensures kept { OnErr result (view self.new ≡ view self.old) }
    {
        let quoting = self.period.stage == Stage::Quoting;
        let time = self.period.admit(quoting, time)?;
        check_in_time(self.period.ends, time.ms)?;
        if !self.participants.kind(row)?.is_seat() {
            return Err(SessionFault::WrongKind);
        }
        self.quotes.name(row, price)?;
        self.period.clock = time.ms;
        Ok(self.standing())
    }
}
