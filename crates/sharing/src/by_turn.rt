//! The policy in which the extra lots go around the table.

ghost use Rattle.std.specs.Prelude.{◌≡◌};
ghost use Rattle.sharing.specs.Shares.{start_of, turn_share, turn_told, turn_extra};
ghost use Rattle.sharing.specs.Counts;
ghost use Rattle.std.proofs.Common.{rules};

use crate::bounds::in_bounds;
use crate::policy::SharingPolicy;
use crate::turns::share_from;
use measures::Lots;

/// By turn: the extra lots of a fix start at the place after the last extra lot of the fix before. A start of 32 or more
/// counts as 0.
#[derive(Clone, Copy, Debug)]
pub struct ByTurn {
    pub start: u32,
}

impl ByTurn {
    /// The start, as one of at most 32 places.
    fn place(self) -> u32
        ensures { result ≡ start_of self.start }
    {
        if self.start < 32 { self.start } else { 0 }
    }
}

impl SharingPolicy for ByTurn {
    ghost share = { λ t. turn_share t.start };

    ghost told = { turn_told };

    ghost whole = { λ p. Counts.turn_whole p.start };

    ghost level = { λ p n q. Counts.level (turn_extra p.start n q) n q };

    ghost outside = { Prim.search rules };

    ghost beyond = { Prim.search rules };

    ghost unmoved = { Prim.search rules };

    fn share_of(&self, members: u32, excess: Lots, place: u32) -> Lots {
        share_from(self.place(), members, excess, place)
    }

    fn tell(&mut self, members: u32, excess: Lots) {
        if in_bounds(members, excess) {
            self.start = (self.place() % members + excess.0 % members) % members;
        }
    }
}

/// Five lots by turn among three members, from the last place on: two, one and two.
pub fn turns_stand()
    ensures { (turn_share 2 3 5 0 ≡ 2) × (turn_share 2 3 5 1 ≡ 1) × (turn_share 2 3 5 2 ≡ 2) }
{}
