//! What a message can ask for, and the words that it then has.

ghost use Rattle.std.specs.Prelude.{◌≡◌, ◌++◌, ◌==◌};
ghost use Rattle.std.specs.List.{position};
ghost use Rattle.std.specs.Result.{result_ok};
ghost use Rattle.messages.specs.Kinds.{kind_number};
ghost use Rattle.messages.specs.Verbs.{verb_number, verb_of, first, again, place_of};

use crate::kinds::Kind;

/// What a message asks for.
#[derive(Clone, Copy, PartialEq, Eq, Debug)]
pub enum Verb {
    /// A quoting seat names a reference price.
    Quote = 1,
    /// The first round begins.
    Begin = 2,
    /// A tender to buy.
    Buy = 3,
    /// A tender to sell.
    Sell = 4,
    /// Lots are taken off a line.
    Reduce = 5,
    /// A period ends.
    Close = 6,
    /// The exchange suspends the session.
    Suspend = 7,
    /// The exchange sets a price for a new round.
    Reissue = 8,
    /// The exchange sets the benchmark.
    Announce = 9,
    /// A gold session opens.
    OpenGold = 10,
    /// A silver session opens.
    OpenSilver = 11,
}

/// A word that names no verb.
#[derive(Clone, Copy, PartialEq, Eq, Debug)]
pub struct UnknownVerb;

impl TryFrom<u32> for Verb {
    type Error = UnknownVerb;

    ghost try_from_gives = { λ w r. result_ok r ≡ verb_of w };

    fn try_from(word: u32) -> Result<Verb, UnknownVerb> {
        match word {
            0x6000_0001 => Ok(Verb::Quote),
            0x6000_0002 => Ok(Verb::Begin),
            0x6000_0003 => Ok(Verb::Buy),
            0x6000_0004 => Ok(Verb::Sell),
            0x6000_0005 => Ok(Verb::Reduce),
            0x6000_0006 => Ok(Verb::Close),
            0x6000_0007 => Ok(Verb::Suspend),
            0x6000_0008 => Ok(Verb::Reissue),
            0x6000_0009 => Ok(Verb::Announce),
            0x6000_000a => Ok(Verb::OpenGold),
            0x6000_000b => Ok(Verb::OpenSilver),
            _ => Err(UnknownVerb),
        }
    }
}

/// Where a kind first stands among the kinds of a message.
fn find(first: &[Kind], again: &[Kind], kind: Kind) -> Option<usize>
    ensures { result ≡ position (λ k. kind_number k == kind_number kind) (first.now ++ again.now) }
{
    first
        .iter()
        .chain(again.iter())
        .position(|one| *one == kind)
}

impl Verb {
    /// The number of the verb.
    // by name: `u32::from` would not say what the number is
    pub fn number(self) -> u32
        ensures { result ≡ verb_number self }
    {
        self as u32
    }

    /// The kinds of the words that each message of this verb has, in their order.
    pub fn first(self) -> &'static [Kind]
        ensures { result.now ≡ first self }
    {
        match self {
            Verb::Quote => &[Kind::Verb, Kind::Time, Kind::Row, Kind::Price],
            Verb::Begin => &[Kind::Verb, Kind::Time],
            Verb::Buy => &[Kind::Verb, Kind::Time, Kind::Row, Kind::Lots],
            Verb::Sell => &[Kind::Verb, Kind::Time, Kind::Row, Kind::Lots],
            Verb::Reduce => &[Kind::Verb, Kind::Time, Kind::Row, Kind::Line, Kind::Lots],
            Verb::Close => &[Kind::Verb, Kind::Time],
            Verb::Suspend => &[Kind::Verb, Kind::Time],
            Verb::Reissue => &[Kind::Verb, Kind::Time, Kind::Price],
            Verb::Announce => &[Kind::Verb, Kind::Time, Kind::Price],
            Verb::OpenGold => &[Kind::Verb, Kind::Time, Kind::Price],
            Verb::OpenSilver => &[Kind::Verb, Kind::Time, Kind::Price],
        }
    }

    /// The kinds of the words that may follow those any number of times.
    pub fn again(self) -> &'static [Kind]
        ensures { result.now ≡ again self }
    {
        match self {
            Verb::Begin => &[Kind::Price],
            Verb::OpenGold => &[Kind::Participant, Kind::Millions],
            Verb::OpenSilver => &[Kind::Participant, Kind::Millions],
            _ => &[],
        }
    }

    /// Where the first word of a kind stands in a message of this verb; 0, at the verb, if it has none.
    pub fn place_of(self, kind: Kind) -> usize
        ensures { result ≡ place_of kind self }
    {
        find(self.first(), self.again(), kind).unwrap_or(0)
    }
}
