//! An amount that passes between the sums of an account.

ghost use Rattle.std.specs.Prelude.{◌≡◌, ◌≤◌, ◌<◌, ◌+◌, ◌-◌, MatchResult};
ghost use Rattle.books.specs.Accounts.{most_held};

use crate::faults::BookFault;
use measures::Fen;

/// The two sums once an amount has passed from one to the other, if the one has it.
pub(crate) fn passed(from: Fen, to: Fen, amount: Fen) -> Result<(Fen, Fen), BookFault>
    requires { from.0 + to.0 ≤ most_held }
    ensures { MatchResult result (λ s. (amount.0 ≤ from.0) × (s.0.0 ≡ from.0 - amount.0) × (s.1.0 ≡ to.0 + amount.0)) (λ f. (from.0 < amount.0) × (f ≡ BookFault.Short)) }
{
    let left = from.0.checked_sub(amount.0).ok_or(BookFault::Short)?;
    Ok((Fen(left), Fen(to.0 + amount.0)))
}
