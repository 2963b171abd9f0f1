//! Why a book refuses.

ghost use Rattle.std.specs.Prelude.{◌≡◌};
ghost use Rattle.books.specs.Faults.{number_of};

/// A refusal of the book, with its number.
#[derive(Clone, Copy, PartialEq, Eq, Debug)]
pub enum BookFault {
    /// The account is unknown.
    Unknown = 31,
    /// Too little is free, or frozen.
    Short = 32,
}

impl BookFault {
    /// The number of the refusal.
    // by name: `u32::from` would not say what the number is
    pub fn number(self) -> u32
        ensures { result ≡ number_of self }
    {
        self as u32
    }
}
