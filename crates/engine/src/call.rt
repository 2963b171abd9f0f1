//! Answering a call.

ghost use Rattle.std.specs.Prelude.{◌≡◌, Ok, Err, Some, None, IfSome, IfOk, IfErr, MatchOption, OnErr};
ghost use Rattle.session.specs.Measures.{suspend_outcome, reissue_outcome, announce_outcome};
ghost use Rattle.books.specs.Accounts.{Accounts};
ghost use Rattle.messages.specs.Calls.{said};
ghost use Rattle.engine.specs.Answering.{AnsweredAs, MeasuredAs, said_standing};
ghost use Rattle.session.specs.Opening.{opened};
ghost use Rattle.session.specs.Orders.{with_order};
ghost use Rattle.session.specs.State.{view, came, standing_at};
ghost use Rattle.engine.specs.Misplaced.{misplaced_at};
ghost use Rattle.engine.specs.Unchanged.{Unchanged};

use crate::engine::Engine;
use books::book::MarginBook;
use contracts::fixing::FixingContract;
use measures::Ticks;
use messages::answers::Answer;
use messages::calls::Call;
use messages::faults::MessageFault;
use participants::roster::Roster;
use rounds::answers::Standing;
use rounds::faults::SessionFault;
use rounds::sides::Side;
use rounds::times::TimeOfDay;
use session::open::RefusedOpening;
use session::orders::{RefusedMeasure, SuspensionOrder};
use session::session::Session;
use sharing::policy::SharingPolicy;
use std::alloc::Global;

/// Why a call is refused that this stage never takes.
pub(crate) fn misplaced(time: u32) -> SessionFault
    ensures { result ≡ misplaced_at time }
{
    TimeOfDay::try_from(time)
        .err()
        .unwrap_or(SessionFault::WrongStage)
}

/// What a refused opening hands back.
#[derive(Drop)]
pub struct Returned<P, B> {
    pub fault: SessionFault,
    pub policy: P,
    pub book: B,
}

impl<C, P, B> Engine<C, P, B> {
    /// Opens a session over a book, which the opening does not change.
    pub fn open<R: Roster>(
        heap: Global,
        time: u32,
        previous: Ticks,
        roster: &R,
        limit: usize,
        policy: P,
        book: B,
    ) -> Result<Engine<C, P, B>, Returned<P, B>>
        ensures opened { IfOk result (λ e. (view e.session ≡ opened (R.listed roster.now) time previous limit policy) × (e.book ≡ book)) }
        ensures refused { IfErr result (λ e. (e.policy ≡ policy) × (e.book ≡ book)) }
    {
        match Session::open(heap, time, previous, roster, limit, policy) {
            Ok(session) => Ok(Engine {
                session,
                book,
                held: None,
            }),
            Err(RefusedOpening { fault, policy }) => Err(Returned {
                fault,
                policy,
                book,
            }),
        }
    }

    /// Where the session stands.
    pub fn standing(&self) -> Standing
        ensures { result ≡ standing_at (view self.now.session).period }
    {
        self.session.standing()
    }

    /// Takes an order into the empty hand.
    // of session, book and order each step writes others, and says which it leaves
    fn keep(&mut self, order: SuspensionOrder)
        requires { self.old.held ≡ None }
        ensures session { self.new.session ≡ self.old.session }
        ensures book { self.new.book ≡ self.old.book }
        ensures held { self.new.held ≡ Some order }
    {
        match self.held.replace(order) {
            None => {}
            Some(_earlier) => unreachable(),
        }
    }

    /// Suspends the session, unless it is suspended: then its order is in hand.
    fn suspend(&mut self, time: u32) -> Result<Standing, SessionFault>
        ensures outcome { MatchOption self.old.held ((m : Accounts) → came result (view self.new.session) m ≡ suspend_outcome (view self.old.session) m time) (λ _. (result ≡ Err (misplaced_at time)) × (view self.new.session ≡ view self.old.session)) }
        ensures book { self.new.book ≡ self.old.book }
        ensures kept { OnErr result (view self.new.session ≡ view self.old.session) }
    {
        if self.held.is_some() {
            return Err(misplaced(time));
        }
        let (standing, order) = self.session.suspend(time)?;
        self.keep(order);
        Ok(standing)
    }
}

impl<C: FixingContract, P: SharingPolicy, B: MarginBook> Engine<C, P, B> {
    /// Takes the order in hand for a measure.
    fn order_at(&mut self, time: u32) -> Result<SuspensionOrder, SessionFault>
        ensures order { MatchOption self.old.held (result ≡ Err (misplaced_at time)) (λ o. result ≡ Ok o) }
        ensures session { self.new.session ≡ self.old.session }
        ensures book { self.new.book ≡ self.old.book }
        ensures held { self.new.held ≡ None }
    {
        self.held.take().ok_or_else(|| misplaced(time))
    }

    /// What a measure answered; a refused one puts its order back into the empty hand.
    fn settle(&mut self, answer: Result<Standing, RefusedMeasure>) -> Result<Standing, SessionFault>
        requires { self.old.held ≡ None }
        ensures answer { result ≡ with_order answer }
        ensures session { self.new.session ≡ self.old.session }
        ensures book { self.new.book ≡ self.old.book }
    {
        // by a match: the refused measure holds an order, which nothing may let fall
        match answer {
            Ok(standing) => Ok(standing),
            Err(RefusedMeasure { fault, order }) => {
                self.keep(order);
                Err(fault)
            }
        }
    }

    fn reissue(&mut self, time: u32, price: Ticks) -> Result<Standing, SessionFault>
        ensures outcome { MeasuredAs self.old.held time (view self.old.session) (B.means self.old.book) (reissue_outcome C.MARGIN.0 (view self.old.session) (B.means self.old.book) time price) (said_standing result) (view self.new.session) (B.means self.new.book) }
        ensures kept { OnErr result (Unchanged B.means self.old self.new) }
    {
        let order = self.order_at(time)?;
        let answer = order.reissue(&mut self.session, &mut self.book, time, price);
        self.settle(answer)
    }

    // beside `reissue` and not one with it: given the step as a closure, it would have to state its calls for every session and book
    fn announce(&mut self, time: u32, price: Ticks) -> Result<Standing, SessionFault>
        ensures outcome { MeasuredAs self.old.held time (view self.old.session) (B.means self.old.book) (announce_outcome C.MARGIN.0 (view self.old.session) (B.means self.old.book) time price) (said_standing result) (view self.new.session) (B.means self.new.book) }
        ensures kept { OnErr result (Unchanged B.means self.old self.new) }
    {
        let order = self.order_at(time)?;
        let answer = order.announce(&mut self.session, &mut self.book, time, price);
        self.settle(answer)
    }

    /// Answers a call. A refusal changes nothing.
    pub fn answer(&mut self, call: &Call) -> Result<Answer, MessageFault>
        ensures outcome { AnsweredAs C.MARGIN.0 C.LARGEST.0 C.THRESHOLD.0 C.step P.share P.told self.old.held (view self.old.session) (B.means self.old.book) (said call.now) result (view self.new.session) (B.means self.new.book) }
        ensures kept { OnErr result (Unchanged B.means self.old self.new) }
    {
        Ok(match *call {
            Call::Quote { time, row, price } => Answer::Standing(
                self.session.quote(time, row, price)?,
            ),
            Call::Begin { time, prices } => Answer::Standing(self.session.begin(time, &prices)?),
            Call::Buy { time, row, lots } => Answer::Tendered(
                self.session
                    .tender(&mut self.book, time, row, Side::Buy, lots)?,
            ),
            Call::Sell { time, row, lots } => Answer::Tendered(
                self.session
                    .tender(&mut self.book, time, row, Side::Sell, lots)?,
            ),
            Call::Reduce {
                time,
                row,
                line,
                lots,
            } => Answer::Standing(self.session.reduce(&mut self.book, time, row, line, lots)?),
            Call::Close { time } => Answer::Standing(self.session.close(&mut self.book, time)?),
            Call::Suspend { time } => Answer::Standing(self.suspend(time)?),
            Call::Reissue { time, price } => Answer::Standing(self.reissue(time, price)?),
            Call::Announce { time, price } => Answer::Standing(self.announce(time, price)?),
            Call::Open { time, .. } => return Err(MessageFault::Session(misplaced(time))),
        })
    }

    /// Announces the Offered Price at the last accepted time, if the session is suspended.
    pub fn announce_if_suspended(&mut self) -> Option<Result<Standing, SessionFault>>
        ensures outcome { IfSome result (λ a. MeasuredAs self.old.held (view self.old.session).period.clock (view self.old.session) (B.means self.old.book) (announce_outcome C.MARGIN.0 (view self.old.session) (B.means self.old.book) (view self.old.session).period.clock (view self.old.session).period.price) (said_standing a) (view self.new.session) (B.means self.new.book)) }
        ensures kept { MatchOption result ((view self.new.session ≡ view self.old.session) × (self.old.held ≡ None)) (λ a. OnErr a (view self.new.session ≡ view self.old.session)) }
    {
        if self.held.is_none() {
            return None;
        }
        let time = self.session.clock();
        let price = self.standing().price;
        Some(self.announce(time, price))
    }
}

impl<C: Drop, P: Drop, B: Drop> Engine<C, P, B> {
    /// Ends the engine, its order spent.
    pub fn retire(self) {
        let Engine {
            session,
            book: _,
            held,
        } = self;
        if let Some(order) = held {
            order.end(session);
        }
    }
}
