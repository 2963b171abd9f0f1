//! Calls as messages.

ghost use Rattle.std.specs.Prelude.{◌≡◌, ◌^◌, ◌<◌, ◌≤◌, true, ◌∷◌, ◌++◌, length, take, drop, IfOk, Ok, OnErr, slice_index};
ghost use Rattle.messages.specs.Verbs.{verb_number, first, again};
ghost use Rattle.messages.specs.Calls.{said};
ghost use Rattle.messages.specs.Reading.{reading};
ghost use Rattle.messages.specs.Writing.{tail_figures, draft_figures, stamped, counted, words_of, writable, first_over, writing_figures, writing};

use crate::calls::Call;
use crate::faults::MessageFault;
use crate::kinds::{FIGURES, word};
use crate::prices::Prices;
use crate::reader::MOST_WORDS;
use crate::reading::coming;
use crate::rows::Rows;
use crate::verbs::Verb;
use session::lists::PriceList;

/// What may follow the fixed fields of a message.
#[derive(Clone, Copy)]
enum Tail<'a> {
    Prices(Prices<'a>),
    Rows(Rows<'a>),
}

impl<'a> Tail<'a> {
    /// How many figures there are; in 128 bits, since it is twice the rows of a caller, who may lend any number of them.
    fn len(self) -> u128
        ensures count { result ≡ length (tail_figures self.entry) }
        ensures small { result < 2 ^ 65 }
    {
        match self {
            Tail::Prices(prices) => prices.len() as u128,
            Tail::Rows(rows) => 2 * rows.len() as u128,
        }
    }

    /// The figure at a place, 0 past the end.
    fn at(self, place: usize) -> u32
        ensures { result ≡ slice_index (tail_figures self.entry) place }
    {
        match self {
            Tail::Prices(prices) => prices.price(place).0,
            Tail::Rows(rows) => {
                let row = rows.at(place / 2);
                if place % 2 == 0 {
                    row.participant()
                } else {
                    row.millions
                }
            }
        }
    }
}

/// A message before it is written: its verb, its fixed fields, and what follows them.
#[derive(Clone, Copy)]
struct Draft<'f, 't> {
    verb: Verb,
    fields: &'f [u32],
    tail: Tail<'t>,
}

impl<'f, 't> Draft<'f, 't> {
    /// How many figures there are.
    fn len(self) -> u128
        ensures { result ≡ length (draft_figures self.entry) }
    {
        1 + self.fields.len() as u128 + self.tail.len()
    }

    /// The figure at a place, 0 past the end.
    fn at(self, place: usize) -> u32
        ensures { result ≡ slice_index (draft_figures self.entry) place }
    {
        if place == 0 {
            return self.verb.number();
        }
        match self.fields.get(place - 1) {
            Some(figure) => *figure,
            None => self.tail.at(place - 1 - self.fields.len()),
        }
    }
}

/// Whether the word at a place of a message can hold a figure.
fn writable(place: usize, figure: u32) -> bool
    ensures { result ≡ writable place figure }
{
    figure < FIGURES && place < MOST_WORDS
}

/// The first place whose figure cannot be written there.
// The length stands beside the draft, which counts in 128 bits and has no slice of its figures.
fn first_over(draft: Draft, len: usize) -> Option<usize>
    requires { len ≡ length (draft_figures draft) }
    ensures { result ≡ first_over 0 (draft_figures draft.entry) }
{
    (0..len).find(|place| !writable(*place, draft.at(*place)))
}

/// Writes the figures as words of the kinds that have to come, with just the room for them.
fn fill(draft: Draft, out: &mut [u32])
    requires counted { counted (again draft.verb) (first draft.verb) (draft_figures draft) ≡ true }
    requires room { length out.old ≡ length (draft_figures draft) }
    ensures { out.new ≡ stamped (again draft.entry.verb) (first draft.entry.verb) (draft_figures draft.entry) }
{
    let more = draft.verb.again();
    let mut left = draft.verb.first();
    for (place, word_out) in out.iter_mut().enumerate() {
        let [kind, rest @ ..] = coming(more, left) else {
            unreachable()
        };
        *word_out = word(*kind, draft.at(place));
        left = rest;
    }
}

/// Writes a draft, unless there is no room for it or a figure does not fit.
fn put(draft: Draft, out: &mut [u32]) -> Result<usize, MessageFault>
    requires { counted (again draft.verb) (first draft.verb) (draft_figures draft) ≡ true }
    ensures { (result, out.new) ≡ writing_figures draft.entry.verb (draft_figures draft.entry) out.old }
{
    let words = draft.len();
    if (out.len() as u128) < words {
        return Err(MessageFault::Short);
    }
    let len = words as usize;
    if let Some(place) = first_over(draft, len) {
        return Err(MessageFault::Misfit { place });
    }
    fill(draft, &mut out[..len]);
    Ok(len)
}

/// Writes a message that ends with its fixed fields.
fn put_fields(verb: Verb, fields: &[u32], out: &mut [u32]) -> Result<usize, MessageFault>
    requires { counted (again verb) (first verb) (verb_number verb ∷ fields.now) ≡ true }
    ensures { (result, out.new) ≡ writing_figures verb (verb_number verb ∷ fields.now) out.old }
{
    // Nothing follows: a tail of no prices. A third case for it would be one more in each question of a tail.
    let tail = Tail::Prices(Prices::Words(&[]));
    put(Draft { verb, fields, tail }, out)
}

/// Writes a call as its verb asks.
fn put_call(call: &Call, out: &mut [u32]) -> Result<usize, MessageFault>
    ensures { (result, out.new) ≡ writing (said call.now) out.old }
{
    match *call {
        Call::Quote { time, row, price } => put_fields(Verb::Quote, &[time, row, price.0], out),
        Call::Begin { time, prices } => {
            let tail = Tail::Prices(prices);
            put(
                Draft {
                    verb: Verb::Begin,
                    fields: &[time],
                    tail,
                },
                out,
            )
        }
        Call::Buy { time, row, lots } => put_fields(Verb::Buy, &[time, row, lots.0], out),
        Call::Sell { time, row, lots } => put_fields(Verb::Sell, &[time, row, lots.0], out),
        Call::Reduce {
            time,
            row,
            line,
            lots,
        } => put_fields(Verb::Reduce, &[time, row, line, lots.0], out),
        Call::Close { time } => put_fields(Verb::Close, &[time], out),
        Call::Suspend { time } => put_fields(Verb::Suspend, &[time], out),
        Call::Reissue { time, price } => put_fields(Verb::Reissue, &[time, price.0], out),
        Call::Announce { time, price } => put_fields(Verb::Announce, &[time, price.0], out),
        Call::Open {
            time,
            metal,
            price,
            rows,
        } => {
            let tail = Tail::Rows(rows);
            put(
                Draft {
                    verb: Verb::from(metal),
                    fields: &[time, price.0],
                    tail,
                },
                out,
            )
        }
    }
}

/// Writes a call as a message at the front of `out`, and says how many words it has. Refused, it leaves `out` as it was:
/// where `out` is too short, else at the first figure over 28 bits, carrier over 16 bits, or word past a list's 16,384.
pub fn write(call: &Call, out: &mut [u32]) -> Result<usize, MessageFault>
    ensures outcome { (result, out.new) ≡ writing (said call.now) out.old }
    ensures front { IfOk result (λ n. take n out.new ≡ words_of (said call.now)) }
    ensures back { IfOk result (λ n. reading (take n out.new) ≡ Ok (said call.now)) }
    ensures kept { OnErr result (out.new ≡ out.old) }
{
    put_call(call, out)
}
