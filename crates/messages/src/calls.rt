//! A message as a call: its figures as they came, however wrong, until the session checks them.

ghost use Rattle.std.specs.Prelude.{◌≡◌};
ghost use Rattle.messages.specs.Calls.{said, time_of};
ghost use Rattle.messages.specs.Writing.{opens};

use crate::prices::Prices;
use crate::rows::Rows;
use crate::verbs::Verb;
use measures::{Lots, Ticks};

/// Which contract a session trades.
#[derive(Clone, Copy, PartialEq, Eq, Debug)]
pub enum Metal {
    Gold,
    Silver,
}

/// The verb that opens a session.
impl From<Metal> for Verb {
    ghost from_gives = { λ m v. v ≡ opens m };

    fn from(metal: Metal) -> Verb {
        match metal {
            Metal::Gold => Verb::OpenGold,
            Metal::Silver => Verb::OpenSilver,
        }
    }
}

/// A message as a call. Times are in milliseconds since midnight.
#[derive(Clone, Copy)]
pub enum Call<'a> {
    /// A quoting seat names a reference price.
    Quote {
        time: u32,
        row: u32,
        price: Ticks,
    },
    /// The first round begins, with the executed prices.
    Begin {
        time: u32,
        prices: Prices<'a>,
    },
    /// A tender to buy.
    Buy {
        time: u32,
        row: u32,
        lots: Lots,
    },
    /// A tender to sell.
    Sell {
        time: u32,
        row: u32,
        lots: Lots,
    },
    /// Lots are taken off a line.
    Reduce {
        time: u32,
        row: u32,
        line: u32,
        lots: Lots,
    },
    /// A period ends.
    Close {
        time: u32,
    },
    /// The exchange suspends the session.
    Suspend {
        time: u32,
    },
    /// The exchange sets a price for a new round.
    Reissue {
        time: u32,
        price: Ticks,
    },
    /// The exchange sets the benchmark.
    Announce {
        time: u32,
        price: Ticks,
    },
    /// A session opens, with the previous benchmark price.
    Open {
        time: u32,
        metal: Metal,
        price: Ticks,
        rows: Rows<'a>,
    },
}

impl<'a> Call<'a> {
    /// When the call is made.
    pub fn time(&self) -> u32
        ensures { result ≡ time_of (said self.now) }
    {
        match *self {
            Call::Quote { time, .. }
            | Call::Begin { time, .. }
            | Call::Buy { time, .. }
            | Call::Sell { time, .. }
            | Call::Reduce { time, .. }
            | Call::Close { time }
            | Call::Suspend { time }
            | Call::Reissue { time, .. }
            | Call::Announce { time, .. }
            | Call::Open { time, .. } => time,
        }
    }
}
