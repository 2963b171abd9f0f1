//! A book that stores a bank's line for each account, and what is drawn on it.

ghost use Rattle.std.specs.Prelude.{◌≡◌};
ghost use Rattle.books.specs.Stored.{line_accounts, credited};
ghost use Rattle.std.proofs.Common.{rules};

use crate::balance::{Balance, MOST_HELD};
use crate::book::MarginBook;
use crate::record::AccountRecord;
use crate::record_book::RecordBook;
use measures::Fen;

/// A line of a bank: `line` is the most that may be frozen, `drawn` is what is frozen now.
#[derive(Clone, Copy, PartialEq, Eq, Debug)]
pub struct BankLine {
    pub line: Fen,
    pub drawn: Fen,
}

/// The line of account `i` stands at place `i`.
pub type BankLineBook = RecordBook<BankLine>;

impl AccountRecord for BankLine {
    ghost meaning = { credited };

    ghost within = { Prim.search rules };

    fn balance(self) -> Option<Balance> {
        if self.line <= MOST_HELD && self.drawn <= self.line {
            Some(Balance {
                free: Fen(self.line.0 - self.drawn.0),
                frozen: self.drawn,
            })
        } else {
            None
        }
    }

    fn holding(self, balance: Balance) -> BankLine {
        BankLine {
            drawn: balance.frozen,
            ..self
        }
    }
}

/// A bank-line book means what each line that it stores leaves free and has drawn.
pub fn bank_line_book_stands(book: &BankLineBook, account: u32)
    ensures { ⟦<BankLineBook as MarginBook>⟧.means book.now account ≡ line_accounts book.now account }
{}
