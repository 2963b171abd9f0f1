//! The share of a place where the extra lots go around the table.

ghost use Rattle.std.specs.Prelude.{◌≡◌, ◌+◌, ◌-◌, ◌%◌, ◌<◌, ◌≤◌};
ghost use Rattle.sharing.specs.Shares.{turn_share};

use crate::bounds::in_bounds;
use measures::Lots;

/// How many places after another a place is, around the table.
#[tactic(auto, using(crate::specs::Counts::around, crate::specs::Counts::ahead))]
fn places_after(start: u32, members: u32, place: u32) -> u32
    requires few { members ≤ 32 }
    requires start { start < members }
    requires place { place < members }
    ensures { result ≡ (place + members - start) % members }
{
    // by a comparison: a remainder would be a second division in each share
    if place < start {
        place + members - start
    } else {
        place - start
    }
}

/// The lots of a place, where the extra ones start at another.
pub(crate) fn share_from(start: u32, members: u32, excess: Lots, place: u32) -> Lots
    requires { start < 32 }
    ensures { result.0 ≡ turn_share start members excess.0 place }
{
    if !in_bounds(members, excess) || place >= members {
        return Lots(0);
    }
    let turn = places_after(start % members, members, place);
    let extra = u32::from(turn < excess.0 % members);
    Lots(excess.0 / members + extra)
}
