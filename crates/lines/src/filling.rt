//! The fills of a fix: every line is filled whole, and the Fixing Members share the excess.

ghost use Rattle.std.specs.Prelude.{◌≡◌, ℕ, ◌+◌, ◌<◌, ◌≤◌, true, length, take, if◌then◌else◌, slice_index_or};
ghost use Rattle.rounds.specs.Sides.{same_side};
ghost use Rattle.rounds.specs.declared.sides.Side.{Side};
ghost use Rattle.lines.specs.Entries.{lines_of, width_of};
ghost use Rattle.lines.specs.Fills.{no_fill, filled_on, filled, share_of, shares_of, Shared, fills_of, Level};
ghost use Rattle.lines.specs.Lines.{lawful, lots_on, of_row, imbalance};
ghost use Rattle.participants.specs.Rosters.{rows_of};

use crate::fills::Fill;
use crate::line::Line;
use crate::table::LineTable;
use measures::Lots;
use participants::rows::Participant;
use participants::table::{MOST_ROWS, Participants};
use rounds::sides::Side;
use sharing::policy::SharingPolicy;

impl Fill {
    /// The fill with more lots on a side.
    fn with(self, side: Side, lots: Lots) -> Fill
        requires bought { self.bought.0 ≤ 163840000 }
        requires sold { self.sold.0 ≤ 163840000 }
        requires lots { lots.0 ≤ 163840000 }
        ensures { result ≡ filled self side lots.0 }
    {
        match side {
            Side::Buy => Fill {
                bought: Lots(self.bought.0 + lots.0),
                ..self
            },
            Side::Sell => Fill {
                sold: Lots(self.sold.0 + lots.0),
                ..self
            },
        }
    }
}

/// Gives each line's standing lots to its row, in one pass over the lines.
// room for the most rows there can be, since a call takes no memory
fn fill_lines(lines: &[Line]) -> [Fill; MOST_ROWS]
    requires few { length lines.now ≤ 4096 }
    requires sound { lawful 256 lines.now ≡ true }
    ensures { (side : Side) (k : ℕ) → k < 256 → filled_on side (slice_index_or result k no_fill) ≡ of_row (lots_on side) lines.now k }
{
    let mut fills = [Fill {
        bought: Lots(0),
        sold: Lots(0),
    }; MOST_ROWS];
    for line in lines {
        let row = line.row as usize;
        fills[row] = fills[row].with(line.side, line.lots);
    }
    fills
}

/// Gives each Fixing Member its share of the excess on the side that takes it, in one pass over the rows.
fn share_out<P: SharingPolicy>(
    rows: &[Participant],
    policy: &P,
    members: u32,
    excess: Lots,
    taker: Side,
    fills: &mut [Fill],
)
    requires few { length rows.now ≤ 256 }
    requires room { length fills.old ≡ 256 }
    requires excess { excess.0 ≤ 163840000 }
    requires stood { (side : Side) (k : ℕ) → k < 256 → filled_on side (slice_index_or fills.old k no_fill) ≤ 163840000 }
    ensures { (side : Side) (k : ℕ) → k < 256 → filled_on side (slice_index_or fills.new k no_fill) ≡ filled_on side (slice_index_or fills.old k no_fill) + (if same_side taker side then share_of (P.share policy.now members excess.0) rows.now k else 0) }
{
    // the place among the Fixing Members, which is no number of a row
    let mut place: u32 = 0;
    for (row, participant) in rows.iter().enumerate() {
        if participant.kind.is_fixing() {
            fills[row] = fills[row].with(taker, policy.share_of(members, excess, place));
            place += 1;
        }
    }
}

impl LineTable {
    /// What a fix gives each row: its standing lots and, if it is a Fixing Member, its share of the excess on the other
    /// side. The shares sum to the excess, any two differing by one lot at most; where the lines are those of the
    /// participants, as many lots are bought as sold.
    pub fn fills<P: SharingPolicy>(
        &self,
        participants: &Participants,
        policy: &P,
    ) -> [Fill; MOST_ROWS]
        ensures value { result ≡ fills_of (shares_of P.share policy.now (rows_of participants.now) (lines_of self.now)) (rows_of participants.now) (lines_of self.now) }
        ensures shared { Shared (shares_of P.share policy.now (rows_of participants.now) (lines_of self.now)) (rows_of participants.now) (imbalance (lines_of self.now)) }
        ensures level { width_of self.now ≡ length (rows_of participants.now) → Level (take (length (rows_of participants.now)) result) }
    {
        let mut fills = fill_lines(self.lines.as_slice());
        share_out(
            participants.rows(),
            policy,
            participants.members(),
            self.imbalance(),
            self.excess().other(),
            &mut fills,
        );
        fills
    }
}
