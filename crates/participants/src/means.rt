//! Means to the nearest whole number, and the mean of the quotes.

ghost use Rattle.std.specs.Prelude.{◌≡◌, ◌+◌, ◌*◌, ◌≤◌, length, IfSome};
ghost use Rattle.participants.specs.Means.{nearest, Nearest, noted, named, tallied, Tallies, from_quotes};
ghost use Rattle.participants.specs.Named.{prices_of};

use crate::quotes::Quotes;
use crate::tally::Tally;
use measures::Ticks;

/// A mean to the nearest whole number, a half up; 0 of nothing.
pub fn nearest_mean(sum: u64, count: u64) -> u64
    ensures value { result ≡ nearest sum count }
    ensures nearest { 1 ≤ count → Nearest sum count result }
{
    if count == 0 {
        return 0;
    }
    let rest = sum % count;
    // twice the rest may not fit, so it is held against what is missing to the next multiple
    if rest < count - rest {
        sum / count
    } else {
        sum / count + 1
    }
}

impl Tally {
    /// The tally with one more quote, if one was named.
    fn note(self, quote: Option<Ticks>) -> Tally
        requires sum { self.sum ≤ 256 * 4294967295 }
        requires count { self.count ≤ 256 }
        ensures value { result ≡ noted self quote }
        ensures sum { result.sum ≤ self.sum + 4294967295 }
        ensures count { result.count ≤ self.count + 1 }
    {
        match quote {
            Some(price) => Tally {
                sum: self.sum + price.0 as u64,
                count: self.count + 1,
                highest: self.highest.max(price.0),
                lowest: self.lowest.min(price.0),
            },
            None => self,
        }
    }
}

/// Sum, count, highest and lowest of the quotes that were named.
fn tally(quotes: &[Option<Ticks>]) -> Tally
    requires { length quotes.now ≤ 256 }
    ensures value { result ≡ tallied quotes.now }
    ensures count { result.count ≤ 256 }
{
    let mut tally = Tally {
        sum: 0,
        count: 0,
        highest: 0,
        lowest: u32::MAX,
    };
    // a loop and no fold: what a note asks of the tally holds by how many came before it
    for quote in quotes {
        tally = tally.note(*quote);
    }
    tally
}

impl Quotes {
    /// The mean of the quotes without one highest and one lowest, where at least half of `seats` named one, and at least
    /// three.
    pub fn mean(&self, seats: u32) -> Option<Ticks>
        ensures value { result ≡ from_quotes seats (prices_of self.now) }
        ensures tallied { Tallies (named (prices_of self.now)) (tallied (prices_of self.now)) }
        ensures within { IfSome result (λ p. (1 ≤ p.0) × (p.0 ≤ 10000000)) }
    {
        let tally = tally(self.prices.as_slice());
        if tally.count < 3 || 2 * tally.count < seats {
            return None;
        }
        let rest = tally.sum - tally.highest as u64 - tally.lowest as u64;
        Some(Ticks(nearest_mean(rest, tally.count as u64 - 2) as u32))
    }
}
