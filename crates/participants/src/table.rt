//! The participant table.

ghost use Rattle.std.specs.Prelude.{◌≡◌, ◌≤◌, vec_len};
ghost use Rattle.participants.specs.Participants.{member_count, seat_count};

use crate::rows::Participant;

/// The most rows of a participant table.
pub const MOST_ROWS: usize = 256;

/// Who takes part: 1 to 256 rows, of which 1 to 32 are Fixing Members.
#[derive(Drop)]
pub struct Participants {
    pub(crate) rows: Vec<Participant>,
    /// How many rows are Fixing Members.
    pub(crate) members: u32,
    /// How many rows are quoting seats.
    pub(crate) seats: u32,
    ghost few: { vec_len rows ≤ 256 },
    ghost counted: { members ≡ member_count rows.items },
    ghost some_members: { 1 ≤ members },
    ghost few_members: { members ≤ 32 },
    ghost seated: { seats ≡ seat_count rows.items },
}
