//! The policy in which the first places take the extra lots.

ghost use Rattle.sharing.specs.Shares.{table_share, table_extra};
ghost use Rattle.sharing.specs.Counts;
ghost use Rattle.std.proofs.Common.{rules};

use crate::policy::SharingPolicy;
use crate::turns::share_from;
use measures::Lots;

/// Table order: it holds nothing, and being told changes nothing.
#[derive(Clone, Copy, Debug)]
pub struct TableOrder;

impl SharingPolicy for TableOrder {
    ghost share = { λ _. table_share };

    ghost told = { λ p n q. p };

    ghost whole = { λ _. Counts.table_whole };

    ghost level = { λ _ n q. Counts.level (table_extra n q) n q };

    ghost outside = { Prim.search rules };

    ghost beyond = { Prim.search rules };

    ghost unmoved = { Prim.search rules };

    #[tactic(auto, using(crate::specs::Counts::turn_from_first))]
    fn share_of(&self, members: u32, excess: Lots, place: u32) -> Lots {
        share_from(0, members, excess, place)
    }

    fn tell(&mut self, _members: u32, _excess: Lots) {}
}
