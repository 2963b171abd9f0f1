//! The figures a policy has a meaning for.

ghost use Rattle.std.specs.Prelude.{◌≡◌};
ghost use Rattle.sharing.specs.Shares.{in_bounds};

use measures::Lots;

/// Whether there are 1 to 32 members, and no more lots than all lines together can hold.
pub(crate) fn in_bounds(members: u32, excess: Lots) -> bool
    ensures { result ≡ in_bounds members excess.0 }
{
    (1..=32).contains(&members) && excess.0 <= 163_840_000
}
