//! The suspension order: a token that a suspension hands out and that only a measure takes back.

ghost use Rattle.std.specs.Prelude.{◌≡◌, IfErr};
ghost use Rattle.session.specs.Orders.{with_order};

use crate::session::Session;
use rounds::answers::Standing;
use rounds::faults::SessionFault;

/// Out as long as its session is suspended. It cannot be let fall, since it has no `Drop`, and it is spent once: `reissue`
/// and `announce` take it.
pub struct SuspensionOrder {
    round: u32,
}

/// A refused measure hands the order back.
pub struct RefusedMeasure {
    pub fault: SessionFault,
    pub order: SuspensionOrder,
}

impl SuspensionOrder {
    /// An order for a session that is suspended in a round.
    pub(crate) fn new(round: u32) -> SuspensionOrder
        ensures { result.round ≡ round }
    {
        SuspensionOrder { round }
    }

    /// Takes the order apart: it is spent.
    fn spend(self) {
        let SuspensionOrder { round: _ } = self;
    }

    /// Spends the order if its measure was accepted, and hands it back if not.
    pub(crate) fn settle(
        self,
        answer: Result<Standing, SessionFault>,
    ) -> Result<Standing, RefusedMeasure>
        ensures answer { with_order result ≡ answer }
        ensures order { IfErr result (λ e. e.order ≡ self) }
    {
        match answer {
            Ok(standing) => {
                self.spend();
                Ok(standing)
            }
            Err(fault) => Err(RefusedMeasure { fault, order: self }),
        }
    }

    /// Ends a suspended session for good, and the order with it: there is nothing left to measure.
    pub fn end<C: Drop, P: Drop>(self, session: Session<C, P>) {
        let SuspensionOrder { round: _spent } = self;
        let _ = session;
    }
}
