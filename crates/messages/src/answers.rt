//! What comes back for a message: two words.

ghost use Rattle.std.specs.Prelude.{◌≡◌};
ghost use Rattle.messages.specs.Answers.{answer_words};

use crate::faults::MessageFault;
use crate::kinds::{FIGURES, Kind, word};
use crate::verbs::Verb;
use rounds::answers::{Standing, Tendered};

/// What an accepted call answers.
#[derive(Clone, Copy, PartialEq, Eq, Debug)]
pub enum Answer {
    /// A tender: its line, and the lots taken.
    Tendered(Tendered),
    /// Any other call: where the session stands, and its price.
    Standing(Standing),
}

/// The two words of an answer to a message of this verb: line and lots of a tender, stage and price of any other call,
/// number and place of a refusal. The engine's figures all fit a word; of a longer one its low 28 bits are written.
pub fn answer_words(answer: Result<Answer, MessageFault>, verb: Option<Verb>) -> [u32; 2]
    ensures { result ≡ answer_words answer verb }
{
    match answer {
        Ok(Answer::Tendered(tender)) => [
            word(Kind::Line, tender.line),
            word(Kind::Lots, tender.lots.0),
        ],
        Ok(Answer::Standing(standing)) => [
            word(Kind::Stage, standing.stage.number()),
            word(Kind::Price, standing.price.0),
        ],
        Err(fault) => [
            word(Kind::Number, fault.number()),
            word(Kind::Place, (fault.place(verb) % FIGURES as usize) as u32),
        ],
    }
}
