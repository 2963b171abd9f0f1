//! How a list of participants becomes a table, and what the table answers.

ghost use Rattle.std.specs.Prelude.{◌≡◌, ◌<◌, ◌≤◌, length, IfOk, Ok, Err, MatchResult, vec_len, OnOk};
ghost use Rattle.rounds.specs.Memory.{Refuses};
ghost use Rattle.participants.specs.Participants.{member_count, seat_count};
ghost use Rattle.participants.specs.Rosters.{rows_of, participant_of, participant_at, carried, row_fits, rows_fit, enrolled, counts_fit, roster_check, kind_at};

use crate::kinds::Kind;
use crate::roster::Roster;
use crate::rows::{Listed, Participant};
use crate::table::{MOST_ROWS, Participants};
use rounds::faults::SessionFault;
use std::alloc::{AllocError, Global};

/// The most Fixing Members of a table.
const MOST_MEMBERS: u32 = 32;

/// One that takes no part.
const NOBODY: Participant = Participant {
    kind: Kind::Customer,
    carrier: 0,
};

/// The participant of a row as it came, if its kind is one and it has the right carrier: a customer a member, a member itself.
fn participant_of<R: Roster>(roster: &R, row: usize) -> Option<Participant>
    ensures { result ≡ participant_of (R.listed roster.now) row }
{
    let listed = roster.participant(row);
    let kind = Kind::try_from(listed.kind).ok()?;
    is_carried(roster, row, listed, kind).then_some(Participant {
        kind,
        carrier: listed.carrier,
    })
}

/// Whether a participant has the right carrier.
fn is_carried<R: Roster>(roster: &R, row: usize, listed: Listed, kind: Kind) -> bool
    ensures { result ≡ carried (R.listed roster.now) row listed kind }
{
    match kind {
        Kind::Customer => Kind::try_from(
            roster.participant(listed.carrier as usize).kind,
        ).is_ok_and(|carrier| carrier != Kind::Customer),
        _ => listed.carrier as usize == row,
    }
}

/// That nothing is wrong with a row.
fn check_participant<R: Roster>(roster: &R, row: usize) -> Result<(), SessionFault>
    ensures { result ≡ row_fits (R.listed roster.now) row }
{
    participant_of(roster, row)
        .map(|_| ())
        .ok_or(SessionFault::Participant { row })
}

/// That nothing is wrong with any row.
fn check_rows<R: Roster>(roster: &R) -> Result<(), SessionFault>
    ensures { result ≡ rows_fit (R.listed roster.now) (length (R.listed roster.now)) }
{
    // by number: the refusal names the row
    for row in 0..roster.rows() {
        check_participant(roster, row)?;
    }
    Ok(())
}

/// The participant of a row; where something is wrong with it, one that takes no part.
fn participant_at<R: Roster>(roster: &R, row: usize) -> Participant
    ensures { result ≡ participant_at (R.listed roster.now) row }
{
    participant_of(roster, row).unwrap_or(NOBODY)
}

/// How many rows there are of the two kinds that are counted.
#[derive(Clone, Copy)]
struct HeadCount {
    members: u32,
    seats: u32,
}

/// How many rows are Fixing Members, and how many are quoting seats, in one pass.
fn head_count<R: Roster>(roster: &R) -> HeadCount
    requires few { length (R.listed roster.now) ≤ 256 }
    ensures members { result.members ≡ member_count (enrolled (R.listed roster.now)) }
    ensures seats { result.seats ≡ seat_count (enrolled (R.listed roster.now)) }
{
    let mut members = 0;
    let mut seats = 0;
    // by number, and a loop for two sums: whether a row is well carried depends on another row
    for row in 0..roster.rows() {
        let kind = participant_at(roster, row).kind;
        members += kind.is_fixing() as u32;
        seats += kind.is_seat() as u32;
    }
    HeadCount { members, seats }
}

/// That there are 1 to 256 rows, of which 1 to 32 are Fixing Members; and how many there are.
fn check_counts<R: Roster>(roster: &R) -> Result<HeadCount, SessionFault>
    ensures answer { MatchResult result (λ _. counts_fit (R.listed roster.now) ≡ Ok tt) (λ f. counts_fit (R.listed roster.now) ≡ Err f) }
    ensures rows { OnOk result (length (R.listed roster.now) ≤ 256) }
    ensures members { IfOk result (λ h. (h.members ≡ member_count (enrolled (R.listed roster.now))) × (1 ≤ h.members) × (h.members ≤ 32)) }
    ensures seats { IfOk result (λ h. h.seats ≡ seat_count (enrolled (R.listed roster.now))) }
{
    if !(1..=MOST_ROWS).contains(&roster.rows()) {
        return Err(SessionFault::Participants);
    }
    let counts = head_count(roster);
    if !(1..=MOST_MEMBERS).contains(&counts.members) {
        return Err(SessionFault::Participants);
    }
    Ok(counts)
}

/// The participants of a roster, in memory of their own.
fn copy_rows<R: Roster>(heap: Global, roster: &R) -> Result<Vec<Participant>, AllocError>
    ensures items { IfOk result (λ v. v.items ≡ enrolled (R.listed roster.now)) }
    ensures len { IfOk result (λ v. vec_len v ≡ length (R.listed roster.now)) }
{
    (0..roster.rows())
        .map(|row| participant_at(roster, row))
        .collect(heap)
}

impl Participants {
    /// The table of a roster, once nothing is wrong with it.
    pub fn of<R: Roster>(heap: Global, roster: &R) -> Result<Participants, SessionFault>
        ensures rows { IfOk result (λ p. rows_of p ≡ enrolled (R.listed roster.now)) }
        ensures fault { Refuses (roster_check (R.listed roster.now)) result }
    {
        check_rows(roster)?;
        let counts = check_counts(roster)?;
        Ok(Participants {
            rows: copy_rows(heap, roster)?,
            members: counts.members,
            seats: counts.seats,
        })
    }

    /// How many rows there are.
    pub fn count(&self) -> usize
        ensures value { result ≡ length (rows_of self.now) }
        ensures few { result ≤ 256 }
    {
        self.rows.len()
    }

    /// The rows, in order.
    pub fn rows(&self) -> &[Participant]
        ensures value { result.now ≡ rows_of self.now }
        ensures few { length result.now ≤ 256 }
    {
        self.rows.as_slice()
    }

    /// How many Fixing Members there are.
    pub fn members(&self) -> u32
        ensures value { result ≡ member_count (rows_of self.now) }
        ensures some { 1 ≤ result }
        ensures few { result ≤ 32 }
    {
        self.members
    }

    /// How many quoting seats there are.
    pub fn seats(&self) -> u32
        ensures { result ≡ seat_count (rows_of self.now) }
    {
        self.seats
    }

    /// The kind of a row, if there is such a row.
    pub fn kind(&self, row: u32) -> Result<Kind, SessionFault>
        ensures answer { result ≡ kind_at (rows_of self.now) row }
        ensures within { OnOk result (row < length (rows_of self.now)) }
    {
        self.rows
            .get(row as usize)
            .map(|participant| participant.kind)
            .ok_or(SessionFault::Row)
    }
}
