//! Suspending a session, and what becomes of its order.

use crate::expected::is_at;
use rounds::answers::Standing;
use rounds::stages::Stage;
use session::orders::{RefusedMeasure, SuspensionOrder};
use session::session::Session;

/// A session that is suspended, with its order.
pub struct Suspended<C, P> {
    pub session: Session<C, P>,
    pub order: SuspensionOrder,
}

/// Suspends a session, which then stands at this price.
pub fn suspend<C: Drop, P: Drop>(
    mut session: Session<C, P>,
    time: u32,
    price: u32,
) -> Option<Suspended<C, P>> {
    let (standing, order) = session.suspend(time).ok()?;
    if is_at(standing, Stage::Suspended, price) {
        Some(Suspended { session, order })
    } else {
        order.end(session);
        None
    }
}

/// Whether a measure was refused by this number, and the order that it handed back; nothing if it was accepted.
pub fn handed_back(
    answer: Result<Standing, RefusedMeasure>,
    number: u32,
) -> Option<(bool, SuspensionOrder)> {
    let RefusedMeasure { fault, order } = answer.err()?;
    Some((fault.number() == number, order))
}

/// The session after an accepted measure, and the answer; nothing after a refused one, whose order ends the session.
pub fn spent<C: Drop, P: Drop>(
    session: Session<C, P>,
    answer: Result<Standing, RefusedMeasure>,
) -> Option<(Session<C, P>, Standing)> {
    match answer {
        Ok(standing) => Some((session, standing)),
        Err(RefusedMeasure { fault: _, order }) => {
            order.end(session);
            None
        }
    }
}
