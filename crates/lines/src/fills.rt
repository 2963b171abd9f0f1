//! What a fix gives one row.

use measures::Lots;

/// The lots that a row has bought and sold: its standing lots, and as a Fixing Member its share of the excess.
#[derive(Clone, Copy, PartialEq, Eq, Debug)]
pub struct Fill {
    pub bought: Lots,
    pub sold: Lots,
}
