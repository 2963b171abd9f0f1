//! The fix: every line is filled whole, and the Fixing Members share the excess.

ghost use Rattle.std.specs.Prelude.{◌≡◌, ◌≤◌};
ghost use Rattle.rounds.specs.declared.stages.Stage.TheVariants.{Fixed};
ghost use Rattle.session.specs.Fixing.{fixed};
ghost use Rattle.session.specs.Periods.{entered};
ghost use Rattle.session.specs.State.{view, standing_at};

use crate::session::Session;
use rounds::answers::Standing;
use rounds::stages::Stage;
use rounds::times::TimeOfDay;
use sharing::policy::SharingPolicy;

impl<C, P: SharingPolicy> Session<C, P> {
    /// Fixes the price: keeps what each row bought and sold, and then tells the policy.
    pub(crate) fn fix(&mut self, time: TimeOfDay) -> Standing
        requires { 1 ≤ self.old.period.price.0 }
        ensures answer { result ≡ standing_at (entered self.old.period Fixed time.ms) }
        ensures state { view self.new ≡ fixed P.share P.told (view self.old) time.ms }
    {
        self.fills = self.table.fills(&self.participants, &self.policy);
        self.policy
            .tell(self.participants.members(), self.table.imbalance());
        self.turn_to(Stage::Fixed, time)
    }
}
