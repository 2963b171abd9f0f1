//! The book that stores a record of each account.

ghost use Rattle.std.specs.Prelude.{◌≡◌, Some};
ghost use Rattle.books.specs.Accounts.{SameSum, replaced_at};
ghost use Rattle.books.specs.Stored.{placed, stored_accounts};
ghost use Rattle.std.proofs.Common.{rules};

use crate::balance::Balance;
use crate::book::MarginBook;
use crate::faults::BookFault;
use crate::passing::passed;
use crate::record::AccountRecord;
use measures::Fen;

/// The record of account `i` stands at place `i`.
#[derive(Drop)]
pub struct RecordBook<R> {
    accounts: Vec<R>,
}

impl<R: AccountRecord> RecordBook<R> {
    /// A book that stores these records.
    pub fn new(accounts: Vec<R>) -> RecordBook<R>
        ensures { stored_accounts R.meaning result ≡ placed R.meaning accounts.items }
    {
        RecordBook { accounts }
    }

    /// Stores another balance of the same sum for an account.
    fn store(&mut self, account: u32, balance: Balance)
        requires { SameSum (stored_accounts R.meaning self.old account) balance }
        ensures { stored_accounts R.meaning self.new ≡ replaced_at (stored_accounts R.meaning self.old) account (Some balance) }
    {
        let place = account as usize;
        self.accounts[place] = self.accounts[place].holding(balance);
    }
}

impl<R: AccountRecord> MarginBook for RecordBook<R> {
    ghost means = { stored_accounts R.meaning };

    ghost bounded = { Prim.search rules };

    fn balance(&self, account: u32) -> Option<Balance> {
        self.accounts
            .get(account as usize)
            .copied()
            .and_then(R::balance)
    }

    fn freeze(&mut self, account: u32, amount: Fen) -> Result<(), BookFault> {
        let held = self.balance(account).ok_or(BookFault::Unknown)?;
        let (free, frozen) = passed(held.free, held.frozen, amount)?;
        self.store(account, Balance { free, frozen });
        Ok(())
    }

    // beside `freeze` and not one with it: what they share is `passed`, and which sum passes into which is all that is left
    fn release(&mut self, account: u32, amount: Fen) -> Result<(), BookFault> {
        let held = self.balance(account).ok_or(BookFault::Unknown)?;
        let (frozen, free) = passed(held.frozen, held.free, amount)?;
        self.store(account, Balance { free, frozen });
        Ok(())
    }
}
