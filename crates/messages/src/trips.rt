//! What is written reads back, and what is read writes back.

ghost use Rattle.std.specs.Prelude.{◌≡◌, take, IfOk, OnErr};
ghost use Rattle.messages.specs.Trips.{rewriting, ReadsBack, WritesBack, Rejoins};

use crate::faults::MessageFault;
use crate::reading::read;
use crate::writing::write;

/// Reads a message and writes it again at the front of `out`: the same words. Its contract also states what that rests on:
/// a call that is written reads back as that call, a message that is read writes back as its words, and the messages of a
/// list, joined, are the list.
pub fn rewrite(message: &[u32], out: &mut [u32]) -> Result<usize, MessageFault>
    ensures outcome { (result, out.new) ≡ rewriting message.now out.old }
    ensures same { IfOk result (λ n. take n out.new ≡ message.now) }
    ensures kept { OnErr result (out.new ≡ out.old) }
    ensures reads { ReadsBack }
    ensures writes { WritesBack }
    ensures rejoins { Rejoins }
{
    let call = read(message)?;
    write(&call, out)
}
