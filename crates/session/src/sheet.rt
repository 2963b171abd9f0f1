//! The sheet: what a fix gave each row.

ghost use Rattle.std.specs.Prelude.{◌≡◌, length, IfOk};
ghost use Rattle.lines.specs.Fills.{Level};
ghost use Rattle.session.specs.Sheets.{said, sheet_outcome};
ghost use Rattle.session.specs.State.{view};

use crate::session::Session;
use lines::fills::Fill;
use measures::Ticks;
use rounds::faults::SessionFault;
use rounds::stages::Stage;

/// The benchmark, and what each row bought and sold at it.
#[derive(Clone, Copy)]
pub struct Sheet<'a> {
    pub price: Ticks,
    pub fills: &'a [Fill],
}

impl<C, P> Session<C, P> {
    /// The sheet of a fixed session, a fill a row.
    pub fn sheet(&self) -> Result<Sheet<'_>, SessionFault>
        ensures outcome { said result ≡ sheet_outcome (view self.now) }
        ensures rows { IfOk result (λ s. length s.fills.now ≡ length (view self.now).rows) }
        ensures level { IfOk result (λ s. Level s.fills.now) }
    {
        if self.period.stage != Stage::Fixed {
            return Err(SessionFault::WrongStage);
        }
        Ok(Sheet {
            price: self.period.price,
            fills: &self.fills[..self.participants.count()],
        })
    }
}
