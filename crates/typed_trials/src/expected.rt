//! Whether an answer is the expected one.

use crate::setup::held;
use books::book::MarginBook;
use lines::fills::Fill;
use measures::{Lots, Ticks};
use rounds::answers::{Standing, Tendered};
use rounds::faults::SessionFault;
use rounds::stages::Stage;
use session::session::Session;

/// Whether a call was refused by this number.
pub fn refused<T: Drop>(answer: Result<T, SessionFault>, number: u32) -> bool {
    answer.is_err_and(|fault| fault.number() == number)
}

/// Whether a session stands in this stage, at this price.
pub fn is_at(standing: Standing, stage: Stage, price: u32) -> bool {
    let price = Ticks(price);
    standing == Standing { stage, price }
}

/// Whether a call was accepted, and led to this stage and price.
pub fn stands(answer: Result<Standing, SessionFault>, stage: Stage, price: u32) -> bool {
    answer.is_ok_and(|standing| is_at(standing, stage, price))
}

/// Whether a tender was accepted as this line, with so many lots taken.
pub fn taken(answer: Result<Tendered, SessionFault>, line: u32, lots: u32) -> bool {
    let lots = Lots(lots);
    answer == Ok(Tendered { line, lots })
}

/// Whether an account holds these sums.
pub fn holds<B: MarginBook>(book: &B, account: u32, free: u64, frozen: u64) -> bool {
    book.balance(account) == Some(held(free, frozen))
}

/// Whether an account is unknown.
pub fn is_unknown<B: MarginBook>(book: &B, account: u32) -> bool {
    book.balance(account).is_none()
}

/// What a row bought and sold.
pub fn fill(bought: u32, sold: u32) -> Fill {
    Fill {
        bought: Lots(bought),
        sold: Lots(sold),
    }
}

/// Whether a session has a sheet at this price, with these fills.
pub fn filled<C, P>(session: &Session<C, P>, price: u32, fills: &[Fill]) -> bool {
    session.sheet().is_ok_and(|sheet| sheet.price == Ticks(price) && sheet.fills == fills)
}
