//! What a participant is, and which kinds quote and share.

ghost use Rattle.std.specs.Prelude.{◌≡◌};
ghost use Rattle.std.specs.Result.{result_ok};
ghost use Rattle.participants.specs.Participants.{kind_of, is_fixing, is_seat};

/// What a participant is.
#[derive(Clone, Copy, PartialEq, Eq, Debug)]
pub enum Kind {
    /// Quotes, tenders, and shares the excess of a fix.
    FixingMember = 1,
    /// Quotes and tenders.
    ReferencePriceMember = 2,
    /// Tenders.
    OtherMember = 3,
    /// Tenders through a member, its carrier.
    Customer = 4,
}

/// A number that names no kind.
#[derive(Clone, Copy, PartialEq, Eq, Debug)]
pub struct UnknownKind;

impl TryFrom<u32> for Kind {
    type Error = UnknownKind;

    ghost try_from_gives = { λ number r. result_ok r ≡ kind_of number };

    fn try_from(number: u32) -> Result<Kind, UnknownKind> {
        match number {
            1 => Ok(Kind::FixingMember),
            2 => Ok(Kind::ReferencePriceMember),
            3 => Ok(Kind::OtherMember),
            4 => Ok(Kind::Customer),
            _ => Err(UnknownKind),
        }
    }
}

impl Kind {
    /// Whether it is a Fixing Member.
    pub fn is_fixing(self) -> bool
        ensures { result ≡ is_fixing self }
    {
        matches!(self, Kind::FixingMember)
    }

    /// Whether it is a quoting seat.
    pub fn is_seat(self) -> bool
        ensures { result ≡ is_seat self }
    {
        matches!(self, Kind::FixingMember | Kind::ReferencePriceMember)
    }
}
