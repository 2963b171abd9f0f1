//! A list of participants as a caller lends it, read by place, so that nothing is copied before it is checked.

ghost use Rattle.std.specs.Prelude.{◌≡◌, List, length, slice_index_or};
ghost use Rattle.participants.specs.declared.rows.Listed.{Listed};
ghost use Rattle.participants.specs.Participants.{unlisted};

use crate::rows::Listed;

/// The participants of an opening.
pub trait Roster {
    ghost listed: { Self → List Listed };

    /// How many there are.
    fn rows(&self) -> usize
        ensures { result ≡ length (listed self.now) };

    /// The participant of a row; one of no kind past the end.
    fn participant(&self, row: usize) -> Listed
        ensures { result ≡ slice_index_or (listed self.now) row unlisted };
}
