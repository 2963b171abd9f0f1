//! A word: four bits that say what it is about, and a figure of 28 bits.

ghost use Rattle.std.specs.Prelude.{◌≡◌};
ghost use Rattle.messages.specs.Kinds.{kind_number, is_kind, figure_of, word_of};

/// How many figures a word can hold, of which the largest is one less.
pub const FIGURES: u32 = 0x1000_0000;

/// What a word is about: its top four bits.
#[derive(Clone, Copy, PartialEq, Eq, Debug)]
pub enum Kind {
    /// Milliseconds since midnight.
    Time = 1,
    /// A row of the participant table.
    Row = 2,
    /// Lots.
    Lots = 3,
    /// A price in ticks.
    Price = 4,
    /// The number of a line.
    Line = 5,
    /// What the message asks for.
    Verb = 6,
    /// A participant's kind × 65,536 and its carrier.
    Participant = 7,
    /// In an answer, the stage.
    Stage = 8,
    /// In an answer, the number of a refusal.
    Number = 9,
    /// In the sheet, lots bought.
    Bought = 10,
    /// In the sheet, lots sold.
    Sold = 11,
    /// In an answer, the place of a refusal.
    Place = 12,
    /// A participant's free millions of fen.
    Millions = 13,
}

impl Kind {
    /// The number of the kind.
    // by name: `u32::from` would not say what the number is
    pub fn number(self) -> u32
        ensures { result ≡ kind_number self }
    {
        self as u32
    }
}

/// Whether a word is of a kind.
pub fn is_kind(word: u32, kind: Kind) -> bool
    ensures { result ≡ is_kind kind word }
{
    word >> 28 == kind.number()
}

/// The figure of a word: its low 28 bits.
pub fn figure(word: u32) -> u32
    ensures { result ≡ figure_of word }
{
    word % FIGURES
}

/// The word of a kind that holds the low 28 bits of a figure.
pub fn word(kind: Kind, number: u32) -> u32
    ensures { result ≡ word_of kind number }
{
    kind.number() * FIGURES + figure(number)
}
