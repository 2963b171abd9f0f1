//! What an accepted call answers.

use crate::stages::Stage;
use measures::{Lots, Ticks};

/// Of a tender: the number of its line, and the lots that were taken.
#[derive(Clone, Copy, PartialEq, Eq, Debug)]
pub struct Tendered {
    pub line: u32,
    pub lots: Lots,
}

/// Of any other call: where the session stands, and its Offered Price (0 while quoting, the benchmark once announced).
#[derive(Clone, Copy, PartialEq, Eq, Debug)]
pub struct Standing {
    pub stage: Stage,
    pub price: Ticks,
}
