//! A list that a caller lends, read where it lies: in the words that it came in, or as values.

ghost use Rattle.std.specs.Prelude.{◌≡◌, ℕ, List, length, map, slice_get};
ghost use Rattle.messages.specs.Kinds.{figure_of};
ghost use Rattle.messages.specs.Lent.{lent_of};

/// What a list of figures can be read as.
pub trait Worded: Copy {
    ghost read: { List ℕ → List Self };

    /// How many items there are in these words.
    fn count(words: &[u32]) -> usize
        ensures { result ≡ length (read (map figure_of words.now)) };

    /// The item at a place of these words, if they have one there.
    fn pick(words: &[u32], place: usize) -> Option<Self>
        ensures { result ≡ slice_get (read (map figure_of words.now)) place };
}

/// A list of items, with nothing copied.
#[derive(Clone, Copy)]
pub enum Lent<'a, T> {
    /// The figures of the words that they came in.
    Words(&'a [u32]),
    /// Items of a caller without words.
    Typed(&'a [T]),
}

impl<'a, T: Worded> Lent<'a, T> {
    /// How many items there are.
    pub fn len(&self) -> usize
        ensures { result ≡ length (lent_of T.read self.now) }
    {
        match *self {
            Lent::Words(words) => T::count(words),
            Lent::Typed(items) => items.len(),
        }
    }

    /// The item at a place, if there is one.
    pub fn get(&self, place: usize) -> Option<T>
        ensures { result ≡ slice_get (lent_of T.read self.now) place }
    {
        match *self {
            Lent::Words(words) => T::pick(words, place),
            Lent::Typed(items) => items.get(place).copied(),
        }
    }
}
