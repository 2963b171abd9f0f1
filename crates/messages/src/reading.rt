//! Messages as calls.

ghost use Rattle.std.specs.Prelude.{◌≡◌, true, length, IfOk};
ghost use Rattle.messages.specs.Writing.{words_of};
ghost use Rattle.messages.specs.Verbs.{first, again};
ghost use Rattle.messages.specs.Calls.{said};
ghost use Rattle.messages.specs.Reading.{matched, fills, coming, verb_named, reading, told, call_of};

use crate::calls::{Call, Metal};
use crate::faults::MessageFault;
use crate::kinds::{Kind, figure, is_kind};
use crate::prices::Prices;
use crate::rows::Rows;
use crate::verbs::Verb;
use measures::{Lots, Ticks};

/// The kinds that may come next, where `left` still have to and `more` may follow again.
pub(crate) fn coming<'a>(more: &'a [Kind], left: &'a [Kind]) -> &'a [Kind]
    ensures { result.now ≡ coming more.now left.now }
{
    match left {
        [] => more,
        _ => left,
    }
}

/// Refuses the first word that does not fit, or the end where one is missing.
fn check(message: &[u32], kinds: &[Kind], more: &[Kind]) -> Result<(), MessageFault>
    ensures { result ≡ matched more.now kinds.now 0 message.now }
{
    let mut left = kinds;
    for (place, word) in message.iter().enumerate() {
        let [kind, rest @ ..] = coming(more, left) else {
            return Err(MessageFault::Misfit { place });
        };
        if !is_kind(*word, *kind) {
            return Err(MessageFault::Misfit { place });
        }
        left = rest;
    }
    if !left.is_empty() {
        return Err(MessageFault::Misfit {
            place: message.len(),
        });
    }
    Ok(())
}

/// The verb of a message, which its first word names.
#[tactic(auto, unfolding(crate::specs::Reading::verb_named))]
pub fn verb_of(message: &[u32]) -> Option<Verb>
    ensures { result ≡ verb_named message.now }
{
    let word = message.first()?;
    Verb::try_from(*word).ok()
}

/// The call that a message makes, with no word copied; or the first word that does not fit.
#[tactic(auto, unfolding(crate::specs::Reading::reading))]
pub fn read(message: &[u32]) -> Result<Call<'_>, MessageFault>
    ensures answer { told result ≡ reading message.now }
    ensures back { IfOk result (λ c. words_of (said c) ≡ message.now) }
{
    let verb = verb_of(message).ok_or(MessageFault::Misfit { place: 0 })?;
    check(message, verb.first(), verb.again())?;
    Ok(call_of(verb, message))
}

/// The call of a message that is as long as its verb asks.
fn call_of(verb: Verb, message: &[u32]) -> Call<'_>
    requires { fills (again verb) (first verb) (length message.now) ≡ true }
    ensures { said result ≡ call_of verb message.now }
{
    match (verb, message) {
        (Verb::Quote, [_, time, row, price]) => Call::Quote {
            time: figure(*time),
            row: figure(*row),
            price: Ticks(figure(*price)),
        },
        (Verb::Begin, [_, time, prices @ ..]) => Call::Begin {
            time: figure(*time),
            prices: Prices::Words(prices),
        },
        (Verb::Buy, [_, time, row, lots]) => Call::Buy {
            time: figure(*time),
            row: figure(*row),
            lots: Lots(figure(*lots)),
        },
        (Verb::Sell, [_, time, row, lots]) => Call::Sell {
            time: figure(*time),
            row: figure(*row),
            lots: Lots(figure(*lots)),
        },
        (Verb::Reduce, [_, time, row, line, lots]) => Call::Reduce {
            time: figure(*time),
            row: figure(*row),
            line: figure(*line),
            lots: Lots(figure(*lots)),
        },
        (Verb::Close, [_, time]) => Call::Close {
            time: figure(*time),
        },
        (Verb::Suspend, [_, time]) => Call::Suspend {
            time: figure(*time),
        },
        (Verb::Reissue, [_, time, price]) => Call::Reissue {
            time: figure(*time),
            price: Ticks(figure(*price)),
        },
        (Verb::Announce, [_, time, price]) => Call::Announce {
            time: figure(*time),
            price: Ticks(figure(*price)),
        },
        (Verb::OpenGold, [_, time, price, rows @ ..]) => Call::Open {
            time: figure(*time),
            metal: Metal::Gold,
            price: Ticks(figure(*price)),
            rows: Rows::Words(rows),
        },
        (Verb::OpenSilver, [_, time, price, rows @ ..]) => Call::Open {
            time: figure(*time),
            metal: Metal::Silver,
            price: Ticks(figure(*price)),
            rows: Rows::Words(rows),
        },
        _ => unreachable(),
    }
}
