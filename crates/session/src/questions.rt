//! What a caller can ask of a session.

ghost use Rattle.std.specs.Prelude.{◌≡◌, ◌≤◌, length};
ghost use Rattle.lines.specs.Entries.{line_at};
ghost use Rattle.session.specs.State.{view, standing_at};

use crate::session::Session;
use lines::line::Line;
use rounds::answers::Standing;
use rounds::periods::Excess;

impl<C, P> Session<C, P> {
    /// Where the session stands, as its answers say it.
    pub fn standing(&self) -> Standing
        ensures { result ≡ standing_at (view self.now).period }
    {
        Standing {
            stage: self.period.stage,
            price: self.period.price,
        }
    }

    /// How many participants there are.
    pub fn row_count(&self) -> usize
        ensures value { result ≡ length (view self.now).rows }
        ensures bound { result ≤ 256 }
    {
        self.participants.count()
    }

    /// The time of the last accepted call.
    pub fn clock(&self) -> u32
        ensures { result ≡ (view self.now).period.clock }
    {
        self.period.clock
    }

    /// The excess at the last market close that was not level: what supplementary tenders stand against.
    pub fn market_excess(&self) -> Excess
        ensures { result ≡ (view self.now).period.excess }
    {
        self.period.excess
    }

    /// The line of a number, if it was made.
    pub fn line(&self, number: u32) -> Option<Line>
        ensures { result ≡ line_at (view self.now).lines number }
    {
        self.table.line(number)
    }
}
