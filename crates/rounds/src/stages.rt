//! The stages a session goes through.

ghost use Rattle.std.specs.Prelude.{◌≡◌};
ghost use Rattle.rounds.specs.Stages.{number_of};

/// Where a session stands, with the number that answers give it.
#[derive(Clone, Copy, PartialEq, Eq, Debug)]
pub enum Stage {
    /// Quoting seats name reference prices.
    Quoting = 0,
    /// Everybody tenders at the Offered Price.
    Market = 1,
    /// Fixing Members tender against the excess.
    Supplementary = 2,
    /// The benchmark is the Offered Price, and every line is filled.
    Fixed = 3,
    /// The exchange has set the benchmark; nothing is filled.
    Announced = 4,
    /// A suspension order is out.
    Suspended = 5,
    /// The price or the rounds came to their limit.
    Halted = 6,
}

impl Stage {
    /// The number of the stage.
    // by name: `u32::from` would not say what the number is
    pub fn number(self) -> u32
        ensures { result ≡ number_of self }
    {
        self as u32
    }
}
