//! A line: what one accepted tender left standing.

ghost use Rattle.std.specs.Prelude.{◌≡◌};
ghost use Rattle.lines.specs.Lines.{lots_on};

use measures::{Lots, Ticks};
use rounds::sides::Side;

/// The lots of one tender that still stand, with the price and the round that they were tendered in.
#[derive(Clone, Copy, PartialEq, Eq, Debug)]
pub struct Line {
    pub row: u32,
    pub side: Side,
    pub lots: Lots,
    pub price: Ticks,
    pub round: u32,
}

impl Line {
    /// The lots that stand on a side.
    pub fn lots_on(&self, side: Side) -> Lots
        ensures { result.0 ≡ lots_on side self.now }
    {
        if self.side == side {
            self.lots
        } else {
            Lots(0)
        }
    }
}
