//! A time of the day.

ghost use Rattle.std.specs.Prelude.{◌≡◌, ◌≤◌, Ok, Err, MatchResult};
ghost use Rattle.rounds.specs.Gates.{time_fits};

use crate::faults::SessionFault;

/// The last millisecond of a day.
const LAST_TIME: u32 = 86_399_999;

/// Milliseconds since midnight: fewer than a day has.
#[derive(Clone, Copy)]
pub struct TimeOfDay {
    pub ms: u32,
    ghost of_day: { ms ≤ 86399999 },
}

impl TryFrom<u32> for TimeOfDay {
    type Error = SessionFault;

    ghost try_from_gives = { λ time r. MatchResult r (λ t. (time_fits time ≡ Ok tt) × (t.ms ≡ time)) (λ f. time_fits time ≡ Err f) };

    fn try_from(time: u32) -> Result<TimeOfDay, SessionFault> {
        if time > LAST_TIME {
            return Err(SessionFault::Time);
        }
        Ok(TimeOfDay { ms: time })
    }
}
