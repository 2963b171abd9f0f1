//! What every margin book is held to.

ghost use Rattle.std.specs.Prelude.{◌≡◌, ℕ, Option, OnErr};
ghost use Rattle.books.specs.declared.balance.Balance.{Balance};
ghost use Rattle.books.specs.Accounts.{Within, freezing, releasing, frozen_at, released_at};

use crate::balance::Balance;
use crate::faults::BookFault;
use measures::Fen;

/// A margin book. What it means is a balance for each account, or nothing for an unknown one.
pub trait MarginBook {
    ghost means: { Self → ℕ → Option Balance };

    /// What an account holds.
    fn balance(&self, account: u32) -> Option<Balance>
        ensures { result ≡ means self.now account };

    /// Passes an amount from free to frozen.
    fn freeze(&mut self, account: u32, amount: Fen) -> Result<(), BookFault>
        ensures answer { result ≡ freezing (means self.old account) amount.0 }
        ensures after { means self.new ≡ frozen_at (means self.old) account amount.0 }
        ensures kept { OnErr result (means self.new ≡ means self.old) };

    /// Passes an amount from frozen back to free.
    fn release(&mut self, account: u32, amount: Fen) -> Result<(), BookFault>
        ensures answer { result ≡ releasing (means self.old account) amount.0 }
        ensures after { means self.new ≡ released_at (means self.old) account amount.0 }
        ensures kept { OnErr result (means self.new ≡ means self.old) };

    ghost bounded: { (b : Self) (account : ℕ) → Within (means b account) };
}
