//! What a list of words is answered, and how it prints.

use std::fmt;

/// Two words a message, and the words of the sheet if the session was fixed.
#[derive(Drop)]
pub struct Transcript {
    pub answers: Vec<[u32; 2]>,
    pub sheet: Vec<u32>,
}

/// Each word in hexadecimal, upper case, eight digits: a line an answer, then the sheet's price, then a line a row.
impl fmt::Display for Transcript {
    fn fmt<W: fmt::Write>(&self, f: &mut fmt::Formatter<W>) -> fmt::Result {
        for [first, second] in self.answers.iter() {
            writeln!(f, "{first:08X} {second:08X}")?;
        }
        let Some((price, rows)) = self.sheet.as_slice().split_first() else {
            return Ok(());
        };
        writeln!(f, "{price:08X}")?;
        let (rows, _) = rows.as_chunks::<3>();
        for [row, bought, sold] in rows {
            writeln!(f, "{row:08X} {bought:08X} {sold:08X}")?;
        }
        Ok(())
    }
}
