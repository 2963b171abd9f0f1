//! A row of the participant table.

use crate::kinds::Kind;

/// A participant. A member's carrier is its own row.
#[derive(Clone, Copy, PartialEq, Eq, Debug)]
pub struct Participant {
    pub kind: Kind,
    pub carrier: u32,
}

/// A participant as it came, before anything is checked.
#[derive(Clone, Copy, PartialEq, Eq, Debug)]
pub struct Listed {
    // a number until it is checked: a caller may name a kind that there is not
    pub kind: u32,
    pub carrier: u32,
}
