//! The engine's record.

use session::orders::SuspensionOrder;
use session::session::Session;

/// One session of the contract `C` with its margin book and, while it is suspended, its order. Whoever holds an engine
/// ends it by `retire`, so that no order is let fall.
pub struct Engine<C, P, B> {
    pub(crate) session: Session<C, P>,
    pub(crate) book: B,
    pub(crate) held: Option<SuspensionOrder>,
}
