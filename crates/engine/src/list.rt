//! Answering a whole list of words, from the opening to the last word.

ghost use Rattle.std.specs.Prelude.{◌≡◌, ◌<◌, [], ◌∷◌, length, IfOk, None, Err};
ghost use Rattle.messages.specs.Answers.{answer_words};
ghost use Rattle.messages.specs.declared.faults.MessageFault.TheVariants.{Misfit};

use crate::call::{Returned, misplaced};
use crate::engine::Engine;
use crate::transcript::Transcript;
use books::balance::Balance;
use books::book::MarginBook;
use books::cash::CashBook;
use contracts::fixing::FixingContract;
use contracts::shag::Shag;
use contracts::shau::Shau;
use measures::{Fen, Ticks};
use messages::answers::{Answer, answer_words};
use messages::calls::{Call, Metal};
use messages::faults::MessageFault;
use messages::reader::Reader;
use messages::reading::{read, verb_of};
use messages::rows::Rows;
use messages::verbs::Verb;
use rounds::faults::SessionFault;
use rounds::stages::Stage;
use session::lists::MOST_PRICES;
use sharing::table_order::TableOrder;
use std::alloc::{AllocError, Global};

/// How many lines a session has that is opened by a message.
pub const LINES: usize = 1_024;

/// Why a call is refused while no session is open.
fn refused_unopened(call: &Call) -> SessionFault {
    match *call {
        Call::Begin { prices, .. } if prices.len() > MOST_PRICES => SessionFault::TooManyPrices,
        _ => misplaced(call.time()),
    }
}

/// The cash book of the rows of an opening: the free money of each, nothing frozen.
fn funded(heap: Global, rows: &Rows) -> Result<CashBook, AllocError> {
    let accounts = (0..rows.len())
        .map(|row| Balance {
            free: Fen::millions(rows.at(row).millions),
            frozen: Fen(0),
        })
        .collect(heap)?;
    Ok(CashBook::new(accounts))
}

/// An opening that a message asks for.
#[derive(Clone, Copy)]
struct Opening<'a> {
    time: u32,
    metal: Metal,
    price: Ticks,
    rows: Rows<'a>,
}

/// A list of words while it is answered: the messages that are left, and the answers so far.
#[derive(Drop)]
struct Hearing<'a> {
    heap: Global,
    reader: Reader<'a>,
    answers: Vec<[u32; 2]>,
}

impl<'a> Hearing<'a> {
    /// Answers the messages before the first opening that reads; nothing if the words end, or an opening is refused.
    fn await_opening(&mut self) -> Result<Option<Opening<'a>>, AllocError> {
        for message in &mut self.reader {
            let verb = verb_of(message);
            let fault = match read(message) {
                Ok(
                    Call::Open {
                        time,
                        metal,
                        price,
                        rows,
                    },
                ) => return Ok(Some(Opening {
                    time,
                    metal,
                    price,
                    rows,
                })),
                Ok(call) => MessageFault::Session(refused_unopened(&call)),
                Err(fault) => fault,
            };
            self.answers.push(answer_words(Err(fault), verb))?;
            if let Some(Verb::OpenGold | Verb::OpenSilver) = verb {
                break;
            }
        }
        Ok(None)
    }

    /// Opens a session of a contract, and answers all that follows.
    fn run<C: FixingContract + Drop>(mut self, opening: Opening) -> Result<Transcript, AllocError> {
        let verb = Some(Verb::from(opening.metal));
        let book = funded(self.heap, &opening.rows)?;
        let opened = Engine::<C, TableOrder, CashBook>::open(
            self.heap,
            opening.time,
            opening.price,
            &opening.rows,
            LINES,
            TableOrder,
            book,
        );
        match opened {
            Ok(mut engine) => {
                let answered = self.answer_all(&mut engine, verb);
                let sheet = sheet_of(self.heap, &engine);
                engine.retire();
                answered?;
                Ok(Transcript {
                    answers: self.answers,
                    sheet: sheet?,
                })
            }
            Err(Returned { fault, .. }) => {
                self.answers
                    .push(answer_words(Err(MessageFault::Session(fault)), verb))?;
                Ok(self.without_sheet())
            }
        }
    }

    /// Answers an opening and all that follows, and announces if the session is left suspended.
    fn answer_all<C: FixingContract>(
        &mut self,
        engine: &mut Engine<C, TableOrder, CashBook>,
        verb: Option<Verb>,
    ) -> Result<(), AllocError> {
        self.answers.push(answer_words(Ok(Answer::Standing(engine.standing())), verb))?;
        for message in &mut self.reader {
            let answer = engine.hear(message);
            self.answers.push(answer_words(answer, verb_of(message)))?;
        }
        if let Some(announced) = engine.announce_if_suspended() {
            let answer = announced
                .map(Answer::Standing)
                .map_err(MessageFault::Session);
            self.answers.push(answer_words(answer, None))?;
        }
        Ok(())
    }

    /// The answers of a list that opens no session.
    fn without_sheet(self) -> Transcript {
        Transcript {
            answers: self.answers,
            sheet: Vec::new(self.heap),
        }
    }
}

/// The words of the sheet of a fixed session; none of another.
fn sheet_of<C, P, B>(heap: Global, engine: &Engine<C, P, B>) -> Result<Vec<u32>, AllocError> {
    if engine.standing().stage != Stage::Fixed {
        return Ok(Vec::new(heap));
    }
    let mut words = vec![in heap; 0; engine.sheet_len()]?;
    let _ = engine.write_sheet(words.as_mut_slice());
    Ok(words)
}

/// Answers a whole list of words.
pub fn answer_list(heap: Global, words: &[u32]) -> Result<Transcript, AllocError>
    ensures too_long { 16384 < length words.now → IfOk result (λ t. (t.answers.items ≡ answer_words (Err (Misfit 16384)) None ∷ []) × (t.sheet.items ≡ [])) }
{
    let mut answers = Vec::with_capacity(heap, words.len().saturating_add(1))?;
    let reader = match Reader::over(words) {
        Ok(reader) => reader,
        Err(fault) => {
            answers.push(answer_words(Err(fault), None))?;
            return Ok(Transcript {
                answers,
                sheet: Vec::new(heap),
            });
        }
    };
    let mut hearing = Hearing {
        heap,
        reader,
        answers,
    };
    match hearing.await_opening()? {
        None => Ok(hearing.without_sheet()),
        Some(opening) => match opening.metal {
            Metal::Gold => hearing.run::<Shau>(opening),
            Metal::Silver => hearing.run::<Shag>(opening),
        },
    }
}
