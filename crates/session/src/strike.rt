//! Striking lines on the way into another period.

ghost use Rattle.std.specs.Prelude.{◌≡◌, IfOk, OnErr};
ghost use Rattle.session.specs.Periods.{Lawful};
ghost use Rattle.session.specs.State.{view, came, Unchanged, standing_at};
ghost use Rattle.session.specs.Striking.{strike_into};

use crate::session::Session;
use books::book::MarginBook;
use contracts::quoted::QuotedContract;
use rounds::answers::Standing;
use rounds::faults::SessionFault;
use rounds::periods::Period;
use rounds::sides::Struck;

impl<C: QuotedContract, P> Session<C, P> {
    /// Strikes lines, and enters another period; a refusal of the book changes nothing.
    pub(crate) fn strike_into<B: MarginBook>(
        &mut self,
        book: &mut B,
        which: Struck,
        period: Period,
    ) -> Result<Standing, SessionFault>
        requires { Lawful period }
        ensures outcome { came result (view self.new) (B.means book.new) ≡ strike_into C.MARGIN.0 (view self.old) (B.means book.old) which period }
        ensures kept { OnErr result (Unchanged B.means self.old self.new book.old book.new) }
        ensures standing { IfOk result (λ s. s ≡ standing_at period) }
    {
        self.table.strike::<C, B>(book, which)?;
        self.period = period;
        Ok(self.standing())
    }
}
