//! The sheet in words.

ghost use Rattle.std.specs.Prelude.{◌≡◌, ◌+◌, ◌*◌, ◌<◌, ◌≤◌, ◌++◌, length, drop, Err, IfOk, OnErr};
ghost use Rattle.messages.specs.declared.faults.MessageFault.TheVariants.{Short};
ghost use Rattle.session.specs.Sheets.{sheet_outcome};
ghost use Rattle.session.specs.State.{view};
ghost use Rattle.engine.specs.Sheets.{row_words, sheet_words, WrittenAs};

use crate::engine::Engine;
use lines::fills::Fill;
use measures::Ticks;
use messages::faults::MessageFault;
use messages::kinds::{Kind, word};

/// A row's number, the lots it bought and the lots it sold.
fn row_words(row: u32, fill: Fill) -> [u32; 3]
    ensures { result ≡ row_words row fill }
{
    [
        word(Kind::Row, row),
        word(Kind::Bought, fill.bought.0),
        word(Kind::Sold, fill.sold.0),
    ]
}

/// Writes the price, and three words a row.
fn write_words(price: Ticks, fills: &[Fill], out: &mut [u32])
    requires few { length fills.now ≤ 256 }
    requires room { 1 + 3 * length fills.now ≤ length out.old }
    ensures { out.new ≡ sheet_words price.0 fills.now ++ drop (1 + 3 * length fills.now) out.old }
{
    out[0] = word(Kind::Price, price.0);
    for (row, fill) in fills.iter().enumerate() {
        let start = 3 * row + 1;
        out[start..start + 3].copy_from_slice(&row_words(row as u32, *fill));
    }
}

impl<C, P, B> Engine<C, P, B> {
    /// How many words the sheet has.
    pub fn sheet_len(&self) -> usize
        ensures value { result ≡ 1 + 3 * length (view self.now.session).rows }
        ensures bound { result ≤ 769 }
    {
        1 + 3 * self.session.row_count()
    }

    /// Writes the sheet of a fixed session at the front of `out`, and says how many words it has.
    pub fn write_sheet(&self, out: &mut [u32]) -> Result<usize, MessageFault>
        ensures short { length out.old < 1 + 3 * length (view self.now.session).rows → result ≡ Err Short }
        ensures words { 1 + 3 * length (view self.now.session).rows ≤ length out.old → WrittenAs (sheet_outcome (view self.now.session)) result out.old out.new }
        ensures len { IfOk result (λ n. n ≡ 1 + 3 * length (view self.now.session).rows) }
        ensures kept { OnErr result (out.new ≡ out.old) }
    {
        let len = self.sheet_len();
        if out.len() < len {
            return Err(MessageFault::Short);
        }
        let sheet = self.session.sheet()?;
        write_words(sheet.price, sheet.fills, out);
        Ok(len)
    }
}
