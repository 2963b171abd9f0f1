//! Why a message is refused, and where.

ghost use Rattle.std.specs.Prelude.{◌≡◌, ◌%◌, ◌^◌};
ghost use Rattle.messages.specs.Faults.{number_of, layer_of, placed_at, word_at_fault};
ghost use Rattle.messages.specs.declared.faults.MessageFault.TheVariants.{Session};

use crate::kinds::Kind;
use crate::verbs::Verb;
use rounds::faults::SessionFault;
use session::lists::MOST_PRICES;

/// A refusal of a message.
#[derive(Clone, Copy, PartialEq, Eq, Debug)]
pub enum MessageFault {
    /// The word at this place does not fit, or the message ends there and one is missing.
    Misfit { place: usize },
    /// There is too little room for what is to be written.
    Short,
    /// The session refuses the call.
    Session(SessionFault),
}

/// Who refuses.
#[derive(Clone, Copy, PartialEq, Eq, Debug)]
pub enum Layer {
    /// The margin book.
    Book,
    /// The session.
    Session,
    /// The message.
    Message,
}

impl From<SessionFault> for MessageFault {
    ghost from_gives = { λ f r. r ≡ Session f };

    fn from(refusal: SessionFault) -> MessageFault {
        MessageFault::Session(refusal)
    }
}

impl MessageFault {
    /// The number of the refusal.
    // by name: `u32::from` would not say what the number is, and variants that carry a value have none of their own
    pub fn number(self) -> u32
        ensures { result ≡ number_of self }
    {
        match self {
            MessageFault::Misfit { .. } => 1,
            MessageFault::Short => 9,
            MessageFault::Session(fault) => fault.number(),
        }
    }

    /// Who refuses.
    pub fn layer(self) -> Layer
        ensures { result ≡ layer_of self }
    {
        match self {
            MessageFault::Misfit { .. } | MessageFault::Short => Layer::Message,
            MessageFault::Session(SessionFault::Book(_)) => Layer::Book,
            MessageFault::Session(_) => Layer::Session,
        }
    }

    /// Where the refusal stands in a message of this verb; 0 for a call made without words. A place is cut to 64 bits, which
    /// those of the engine have: its messages end before place 16,384.
    pub fn place(self, verb: Option<Verb>) -> usize
        ensures { result ≡ placed_at verb self % 2 ^ 64 }
    {
        match (self, verb) {
            (MessageFault::Misfit { place }, _) => place,
            (MessageFault::Session(fault), Some(verb)) => word_at_fault(fault, verb),
            _ => 0,
        }
    }
}

/// The place of the word that the session refuses, else of the verb, cut to 64 bits.
fn word_at_fault(fault: SessionFault, verb: Verb) -> usize
    ensures { result ≡ word_at_fault verb fault % 2 ^ 64 }
{
    match fault {
        SessionFault::Time => verb.place_of(Kind::Time),
        SessionFault::Row => verb.place_of(Kind::Row),
        SessionFault::Amount => verb.place_of(Kind::Lots),
        SessionFault::Price { at } => verb.place_of(Kind::Price).wrapping_add(at),
        SessionFault::TooManyPrices => verb.place_of(Kind::Price).wrapping_add(MOST_PRICES),
        SessionFault::Participant { row } => verb
            .place_of(Kind::Participant)
            .wrapping_add(row.wrapping_mul(2)),
        _ => 0,
    }
}
