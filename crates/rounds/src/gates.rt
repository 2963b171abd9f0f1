//! The checks that several calls share, each with the refusal it gives.

ghost use Rattle.std.specs.Prelude.{◌≡◌, ◌≤◌, true, IfOk, OnOk};
ghost use Rattle.rounds.specs.Gates.{said, admitted, in_time, ended, price_fits, lots_fit};

use crate::faults::SessionFault;
use crate::periods::Period;
use crate::times::TimeOfDay;
use measures::{Lots, Ticks};

/// The highest price, in ticks; the lowest is 1.
pub const HIGHEST_PRICE: u32 = 10_000_000;

impl Period {
    /// That the time is one of the day, that the call belongs to the stage, and that no later call was accepted.
    pub fn admit(&self, belongs: bool, time: u32) -> Result<TimeOfDay, SessionFault>
        ensures answer { said result ≡ admitted belongs self.now time }
        ensures belongs { OnOk result (belongs ≡ true) }
        ensures same { IfOk result (λ t. t.ms ≡ time) }
    {
        let time = TimeOfDay::try_from(time)?;
        if !belongs {
            return Err(SessionFault::WrongStage);
        }
        if time.ms < self.clock {
            return Err(SessionFault::Early);
        }
        Ok(time)
    }
}

/// That a period is not over.
pub fn check_in_time(ends: u32, time: u32) -> Result<(), SessionFault>
    ensures { result ≡ in_time ends time }
{
    if time >= ends {
        Err(SessionFault::Over)
    } else {
        Ok(())
    }
}

/// That a period is over.
pub fn check_ended(ends: u32, time: u32) -> Result<(), SessionFault>
    ensures { result ≡ ended ends time }
{
    if time < ends {
        Err(SessionFault::NotOver)
    } else {
        Ok(())
    }
}

/// That a price is one, the price at this place of its call.
pub fn check_price(price: Ticks, at: usize) -> Result<(), SessionFault>
    ensures answer { result ≡ price_fits at price.0 }
    ensures within { OnOk result ((1 ≤ price.0) × (price.0 ≤ 10000000)) }
{
    if !(1..=HIGHEST_PRICE).contains(&price.0) {
        return Err(SessionFault::Price { at });
    }
    Ok(())
}

/// That lots are at least one, and at most the largest tender.
pub fn check_lots(lots: Lots, largest: Lots) -> Result<(), SessionFault>
    ensures answer { result ≡ lots_fit largest.0 lots.0 }
    ensures within { OnOk result ((1 ≤ lots.0) × (lots.0 ≤ largest.0)) }
{
    if lots.0 < 1 || lots > largest {
        Err(SessionFault::Amount)
    } else {
        Ok(())
    }
}
