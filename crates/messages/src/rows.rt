//! The rows of an opening: who takes part, and with how much money.

ghost use Rattle.std.specs.Prelude.{◌≡◌, map, slice_index_or};
ghost use Rattle.messages.specs.Rows.{row_of, blank_row, participant_figure, paired, rows_of, listed_of};

use crate::kinds::{FIGURES, figure};
use crate::lent::{Lent, Worded};
use participants::roster::Roster;
use participants::rows::Listed;

/// A row of an `Open`: a participant and its free millions of fen.
#[derive(Clone, Copy, PartialEq, Eq, Debug)]
pub struct OpenRow {
    // a number, and not a kind: a message with a wrong one is written again as it came
    pub kind: u32,
    pub carrier: u32,
    pub millions: u32,
}

impl OpenRow {
    /// The row of two figures.
    fn of(participant: u32, millions: u32) -> OpenRow
        ensures { result ≡ row_of participant millions }
    {
        OpenRow {
            kind: participant / 0x1_0000,
            carrier: participant % 0x1_0000,
            millions,
        }
    }

    /// The participant as one figure. One with a kind over 12 bits or a carrier over 16 has none: 2^28, which no word holds,
    /// stands for it, so that the writer refuses it at its place.
    pub(crate) fn participant(self) -> u32
        ensures { result ≡ participant_figure self }
    {
        if self.kind < 0x1000 && self.carrier < 0x1_0000 {
            self.kind * 0x1_0000 + self.carrier
        } else {
            FIGURES
        }
    }
}

impl From<OpenRow> for Listed {
    ghost from_gives = { λ row l. l ≡ listed_of row };

    fn from(row: OpenRow) -> Listed {
        Listed {
            kind: row.kind,
            carrier: row.carrier,
        }
    }
}

/// The rows of an `Open`.
pub type Rows<'a> = Lent<'a, OpenRow>;

/// Two words are a row; a word behind the last whole row is not read.
impl Worded for OpenRow {
    ghost read = { paired };

    fn count(words: &[u32]) -> usize {
        words.len() / 2
    }

    fn pick(words: &[u32], row: usize) -> Option<OpenRow> {
        let (pairs, _) = words.as_chunks::<2>();
        let [participant, millions] = pairs.get(row)?;
        Some(OpenRow::of(figure(*participant), figure(*millions)))
    }
}

impl<'a> Lent<'a, OpenRow> {
    /// The row at a place; one of noughts past the end.
    pub fn at(&self, row: usize) -> OpenRow
        ensures { result ≡ slice_index_or (rows_of self.now) row blank_row }
    {
        self.get(row).unwrap_or(OpenRow::of(0, 0))
    }
}

impl<'a> Roster for Lent<'a, OpenRow> {
    ghost listed = { λ s. map listed_of (rows_of s) };

    fn rows(&self) -> usize {
        self.len()
    }

    fn participant(&self, row: usize) -> Listed {
        Listed::from(self.at(row))
    }
}
