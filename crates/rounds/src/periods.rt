//! The period that a session is in.

use crate::sides::Side;
use crate::stages::Stage;
use measures::{Lots, Ticks};

/// A change of the Offered Price, of a tick or more.
#[derive(Clone, Copy)]
pub struct Move {
    pub up: bool,
    pub size: Ticks,
}

/// How far one side stood above the other.
#[derive(Clone, Copy)]
pub struct Excess {
    pub side: Side,
    pub lots: Lots,
}

/// Where a session stands in its rounds: plain figures, copied whole.
#[derive(Clone, Copy)]
pub struct Period {
    pub stage: Stage,
    /// 1 to 64, and 0 while quoting.
    // here and below 0 and no Option: it is what an answer says while quoting
    pub round: u32,
    /// The Offered Price: 0 while quoting.
    pub price: Ticks,
    /// The benchmark before this session.
    pub previous: Ticks,
    /// The time of the last accepted call.
    pub clock: u32,
    /// When the period is over.
    pub ends: u32,
    /// The last move, unless a measure came after it.
    pub last: Option<Move>,
    /// The excess at the last market close that was not level: once supplementary lots stand the lines do not tell it.
    pub excess: Excess,
}
