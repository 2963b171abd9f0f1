//! A book that stores both sums of each account.

ghost use Rattle.std.specs.Prelude.{◌≡◌};
ghost use Rattle.books.specs.Stored.{cash_accounts, known};
ghost use Rattle.std.proofs.Common.{rules};

use crate::balance::{Balance, MOST_HELD};
use crate::book::MarginBook;
use crate::record::AccountRecord;
use crate::record_book::RecordBook;

/// The balance of account `i` stands at place `i`.
pub type CashBook = RecordBook<Balance>;

impl AccountRecord for Balance {
    ghost meaning = { known };

    ghost within = { Prim.search rules };

    fn balance(self) -> Option<Balance> {
        if self.free <= MOST_HELD && self.frozen.0 <= MOST_HELD.0 - self.free.0 {
            Some(self)
        } else {
            None
        }
    }

    fn holding(self, balance: Balance) -> Balance {
        balance
    }
}

/// A cash book means each balance that it stores within the bound.
pub fn cash_book_stands(book: &CashBook, account: u32)
    ensures { ⟦<CashBook as MarginBook>⟧.means book.now account ≡ cash_accounts book.now account }
{}
