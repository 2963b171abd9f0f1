//! A list of words, message by message.

ghost use Rattle.std.specs.Prelude.{◌≡◌, ◌<◌, ◌≤◌, [], ◌∷◌, length, MatchOption, MatchResult};
ghost use Rattle.std.specs.List.{position};
ghost use Rattle.messages.specs.Kinds.{is_kind};
ghost use Rattle.messages.specs.Messages.{messages, unread};
ghost use Rattle.messages.specs.declared.kinds.Kind.TheVariants.{Verb};
ghost use Rattle.messages.specs.declared.faults.MessageFault.TheVariants.{Misfit};
ghost use Rattle.std.specs.Iterator.{at_most};

use crate::faults::MessageFault;
use crate::kinds::{Kind, is_kind};

/// Gives the messages of a list of words one after another, each as a part of the list.
#[derive(Drop)]
pub struct Reader<'a> {
    rest: &'a [u32],
}

/// The most words of a list.
pub const MOST_WORDS: usize = 16_384;

/// Where the next verb stands.
fn next_verb(words: &[u32]) -> Option<usize>
    ensures { result ≡ position (is_kind Verb) words.now }
{
    words.iter().position(|word| is_kind(*word, Kind::Verb))
}

impl<'a> Reader<'a> {
    /// A reader of a whole list. One over 16,384 words is refused, before any of its messages is read.
    pub fn over(words: &'a [u32]) -> Result<Reader<'a>, MessageFault>
        ensures { MatchResult result (λ s. (unread s ≡ words.now) × (length words.now ≤ 16384)) (λ f. (f ≡ Misfit 16384) × (16384 < length words.now)) }
    {
        if words.len() > MOST_WORDS {
            return Err(MessageFault::Misfit { place: MOST_WORDS });
        }
        Ok(Reader { rest: words })
    }
}

impl<'a> Iterator for Reader<'a> {
    type Item = &'a [u32];

    ghost remaining = { λ s. at_most (length (messages (unread s))) };

    ghost next_gives = { λ s r t. MatchOption r (messages (unread s) ≡ []) (λ m. messages (unread s) ≡ m.now ∷ messages (unread t)) };

    fn next(&mut self) -> Option<&'a [u32]> {
        let (_, behind) = self.rest.split_first()?;
        let end = 1 + next_verb(behind).unwrap_or(behind.len());
        let (message, rest) = self.rest.split_at(end);
        self.rest = rest;
        Some(message)
    }
}
