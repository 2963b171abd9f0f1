//! Answering a message.

ghost use Rattle.std.specs.Prelude.{◌≡◌, ◌<◌, ◌≤◌, length, Err, OnErr};
ghost use Rattle.messages.specs.Answers.{answer_words};
ghost use Rattle.messages.specs.Reading.{verb_named, reading};
ghost use Rattle.messages.specs.declared.faults.MessageFault.TheVariants.{Short};
ghost use Rattle.session.specs.State.{view};
ghost use Rattle.engine.specs.Answering.{HeardAs};
ghost use Rattle.engine.specs.Fronts.{fronted};
ghost use Rattle.engine.specs.Unchanged.{Unchanged};

use crate::engine::Engine;
use books::book::MarginBook;
use contracts::fixing::FixingContract;
use messages::answers::{Answer, answer_words};
use messages::faults::MessageFault;
use messages::reading::{read, verb_of};
use sharing::policy::SharingPolicy;

/// Writes two words at the front.
fn put(out: &mut [u32], words: [u32; 2])
    requires { 2 ≤ length out.old }
    ensures { out.new ≡ fronted out.old words }
{
    out[..2].copy_from_slice(&words);
}

impl<C: FixingContract, P: SharingPolicy, B: MarginBook> Engine<C, P, B> {
    /// Answers the call that a message makes.
    pub fn hear(&mut self, message: &[u32]) -> Result<Answer, MessageFault>
        ensures outcome { HeardAs C.MARGIN.0 C.LARGEST.0 C.THRESHOLD.0 C.step P.share P.told self.old.held (view self.old.session) (B.means self.old.book) (reading message.now) result (view self.new.session) (B.means self.new.book) }
        ensures kept { OnErr result (Unchanged B.means self.old self.new) }
    {
        let call = read(message)?;
        self.answer(&call)
    }

    /// Answers a message in two words at the front of `out`. With less room nothing happens.
    pub fn answer_message(
        &mut self,
        message: &[u32],
        out: &mut [u32],
    ) -> Result<Answer, MessageFault>
        ensures outcome { 2 ≤ length out.old → HeardAs C.MARGIN.0 C.LARGEST.0 C.THRESHOLD.0 C.step P.share P.told self.old.held (view self.old.session) (B.means self.old.book) (reading message.now) result (view self.new.session) (B.means self.new.book) }
        ensures kept { OnErr result (Unchanged B.means self.old self.new) }
        ensures short { length out.old < 2 → (result ≡ Err Short) × (out.new ≡ out.old) }
        ensures words { 2 ≤ length out.old → out.new ≡ fronted out.old (answer_words result (verb_named message.now)) }
    {
        if out.len() < 2 {
            return Err(MessageFault::Short);
        }
        let answer = self.hear(message);
        put(out, answer_words(answer, verb_of(message)));
        answer
    }
}
