//! What is done to the quotes.

ghost use Rattle.std.specs.Prelude.{◌≡◌, ◌≤◌, length, replicate, IfOk, Some, None, OnErr, OnOk, slice_set};
ghost use Rattle.rounds.specs.Gates.{price_fits};
ghost use Rattle.participants.specs.Named.{prices_of};
ghost use Rattle.participants.specs.Rosters.{rows_of};

use crate::quotes::Quotes;
use crate::table::Participants;
use measures::Ticks;
use rounds::faults::SessionFault;
use rounds::gates::check_price;
use std::alloc::{AllocError, Global};

impl Quotes {
    /// Room for a quote of each participant.
    pub fn new(heap: Global, participants: &Participants) -> Result<Quotes, AllocError>
        ensures { IfOk result (λ q. prices_of q ≡ replicate (length (rows_of participants.now)) None) }
    {
        let prices = vec![in heap; None; participants.count()]?;
        Ok(Quotes { prices })
    }

    /// Takes a row's price; a later one replaces it. A row past the end has no quote.
    pub fn name(&mut self, row: u32, price: Ticks) -> Result<(), SessionFault>
        ensures answer { result ≡ price_fits 0 price.0 }
        ensures named { OnOk result (prices_of self.new ≡ slice_set (prices_of self.old) row (Some price)) }
        ensures kept { OnErr result (prices_of self.new ≡ prices_of self.old) }
    {
        check_price(price, 0)?;
        if let Some(quote) = self.prices.get_mut(row as usize) {
            *quote = Some(price);
        }
        Ok(())
    }
}
