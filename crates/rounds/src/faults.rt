//! Why the session refuses a call.

ghost use Rattle.std.specs.Prelude.{◌≡◌};
ghost use Rattle.rounds.specs.Faults.{number_of};
ghost use Rattle.rounds.specs.declared.faults.SessionFault.TheVariants.{Book, Memory};

use books::faults::BookFault;
use std::alloc::AllocError;

/// A refusal, with what is needed to find its place: which price, which row.
#[derive(Clone, Copy, PartialEq, Eq, Debug)]
pub enum SessionFault {
    /// The time is above 86,399,999 ms.
    Time,
    /// There is no such row.
    Row,
    /// The lots are outside 1 to the largest tender.
    Amount,
    /// The price at this place of the call's prices is outside 1 to 10,000,000.
    Price { at: usize },
    /// The participant of this row has a kind outside 1 to 4 or a wrong carrier.
    Participant { row: usize },
    /// There are no participants, over 256, no Fixing Member or over 32.
    Participants,
    /// The line limit is outside 1 to 4,096.
    LineLimit,
    /// There are more than 10,000 executed prices.
    TooManyPrices,
    /// There is no memory for the session.
    Memory,
    /// The call does not belong to this stage.
    WrongStage,
    /// The call is earlier than the last accepted one.
    Early,
    /// The period is over.
    Over,
    /// The period is not over yet.
    NotOver,
    /// A participant of this kind may not make the call.
    WrongKind,
    /// The supplementary tender is on the side of the excess.
    WrongSide,
    /// Nothing remains of the imbalance.
    NothingRemains,
    /// The row has no such line.
    NoSuchLine,
    /// The line is of an earlier round.
    EarlierRound,
    /// The line has fewer lots.
    FewerLots,
    /// The line table is used up.
    LinesUsedUp,
    /// The book refuses.
    Book(BookFault),
    /// There is no round after the sixty-fourth.
    LastRound,
}

impl From<BookFault> for SessionFault {
    ghost from_gives = { λ f r. r ≡ Book f };

    fn from(refusal: BookFault) -> SessionFault {
        SessionFault::Book(refusal)
    }
}

impl From<AllocError> for SessionFault {
    ghost from_gives = { λ _ r. r ≡ Memory };

    fn from(_: AllocError) -> SessionFault {
        Self::Memory
    }
}

impl SessionFault {
    /// The number of the refusal.
    // by name: `u32::from` would not say what the number is, and variants that carry a value have none of their own
    pub fn number(self) -> u32
        ensures { result ≡ number_of self }
    {
        match self {
            SessionFault::Time => 2,
            SessionFault::Row => 3,
            SessionFault::Amount => 4,
            SessionFault::Price { .. } => 5,
            SessionFault::Participant { .. } => 6,
            SessionFault::Participants => 6,
            SessionFault::LineLimit => 7,
            SessionFault::TooManyPrices => 8,
            SessionFault::Memory => 10,
            SessionFault::WrongStage => 20,
            SessionFault::Early => 21,
            SessionFault::Over => 22,
            SessionFault::NotOver => 23,
            SessionFault::WrongKind => 24,
            SessionFault::WrongSide => 25,
            SessionFault::NothingRemains => 26,
            SessionFault::NoSuchLine => 27,
            SessionFault::EarlierRound => 28,
            SessionFault::FewerLots => 29,
            SessionFault::LinesUsedUp => 30,
            SessionFault::Book(fault) => fault.number(),
            SessionFault::LastRound => 33,
        }
    }
}
