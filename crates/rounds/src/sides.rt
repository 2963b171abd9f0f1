//! The two sides of the market, and which of them is struck.

ghost use Rattle.std.specs.Prelude.{◌≡◌, if◌then◌else◌};
ghost use Rattle.rounds.specs.Sides.{other, hits};

use measures::Lots;

/// Which way a tender goes.
#[derive(Clone, Copy, PartialEq, Eq, Debug)]
pub enum Side {
    Buy,
    Sell,
}

impl Side {
    /// The side that stands against this one.
    pub fn other(self) -> Side
        ensures { result ≡ other self }
    {
        match self {
            Side::Buy => Side::Sell,
            Side::Sell => Side::Buy,
        }
    }
}

/// The lines that a move or a measure strikes.
#[derive(Clone, Copy)]
pub enum Struck {
    /// Those of one side.
    Only(Side),
    /// All of them.
    All,
}

impl Struck {
    /// Whether a line of a side is struck.
    pub fn hits(self, side: Side) -> bool
        ensures { result ≡ hits self side }
    {
        match self {
            Struck::Only(struck) => struck == side,
            Struck::All => true,
        }
    }

    /// What striking leaves of lots on a side.
    pub fn leaves(self, side: Side, lots: Lots) -> Lots
        ensures { result.0 ≡ (if hits self side then 0 else lots.0) }
    {
        if self.hits(side) { Lots(0) } else { lots }
    }
}
