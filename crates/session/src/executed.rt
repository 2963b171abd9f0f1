//! The prices executed in the matching contract: checked one by one, and averaged.

ghost use Rattle.std.specs.Prelude.{◌≡◌, ◌≤◌, length, OnOk};
ghost use Rattle.session.specs.Initial.{Prices, prices_fit, executed_mean};

use crate::lists::PriceList;
use measures::Ticks;
use participants::means::nearest_mean;
use rounds::faults::SessionFault;
use rounds::gates::check_price;

/// That each executed price is one.
pub(crate) fn check_prices<L: PriceList>(executed: &L) -> Result<(), SessionFault>
    ensures answer { result ≡ prices_fit 0 (L.prices executed.now) }
    ensures priced { OnOk result (Prices (L.prices executed.now)) }
{
    // by place: the refusal names it
    for place in 0..executed.count() {
        check_price(executed.price(place), place)?;
    }
    Ok(())
}

/// The mean of some executed prices.
pub(crate) fn executed_mean<L: PriceList>(executed: &L) -> Ticks
    requires some { 1 ≤ length (L.prices executed.now) }
    requires few { length (L.prices executed.now) ≤ 10000 }
    requires priced { Prices (L.prices executed.now) }
    ensures value { result.0 ≡ executed_mean (L.prices executed.now) }
    ensures within { (1 ≤ result.0) × (result.0 ≤ 10000000) }
{
    let mut sum: u64 = 0;
    // a loop and no chain: that the sum of a chain over the places fits was tried, and not proved
    for place in 0..executed.count() {
        sum += executed.price(place).0 as u64;
    }
    Ticks(nearest_mean(sum, executed.count() as u64) as u32)
}
