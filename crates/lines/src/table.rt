//! The line table.

ghost use Rattle.std.specs.Prelude.{◌≡◌, ◌≤◌, true, vec_len, vec_capacity};
ghost use Rattle.rounds.specs.declared.sides.Side.TheVariants.{Buy, Sell};
ghost use Rattle.lines.specs.Lines.{standing, lawful};

use crate::line::Line;
use measures::Lots;

/// The lines of a session, in the order in which their tenders were accepted, with the standing lots of both sides kept
/// as running totals, so that a tender costs the same however many lines there are.
#[derive(Drop)]
pub struct LineTable {
    pub(crate) lines: Vec<Line>,
    pub(crate) limit: usize,
    /// How many participants there are: a line is one of theirs.
    pub(crate) rows: usize,
    pub(crate) buys: Lots,
    pub(crate) sells: Lots,
    ghost few_lines: { vec_len lines ≤ limit },
    ghost small: { limit ≤ 4096 },
    ghost reserved: { limit ≤ vec_capacity lines },
    ghost narrow: { rows ≤ 256 },
    ghost sound: { lawful rows lines.items ≡ true },
    ghost bought: { buys.0 ≡ standing Buy lines.items },
    ghost sold: { sells.0 ≡ standing Sell lines.items },
}
