//! What a book stores for one account.

ghost use Rattle.std.specs.Prelude.{◌≡◌, Option, Some};
ghost use Rattle.books.specs.declared.balance.Balance.{Balance};
ghost use Rattle.books.specs.Accounts.{SameSum, Within};

use crate::balance::Balance;

/// The record of one account, whatever it stores. What it means is a balance, or nothing where the account is unknown.
pub trait AccountRecord: Copy {
    ghost meaning: { Self → Option Balance };

    /// The balance that the record means.
    fn balance(self) -> Option<Balance>
        ensures { result ≡ meaning self };

    /// The record that means another balance of the same sum.
    fn holding(self, balance: Balance) -> Self
        ensures { SameSum (meaning self) balance → meaning result ≡ Some balance };

    ghost within: { (r : Self) → Within (meaning r) };
}
