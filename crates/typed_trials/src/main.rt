//! Plays sessions without words: calls that are made with typed values, where a list of words cannot reach. Each answer is
//! compared with what the rules give.

#![tactic(auto)]

mod accounts;
mod expected;
mod limits;
mod margins;
mod one_book;
mod openings;
mod orders;
mod reductions;
mod setup;
mod shares;
mod sheets;
mod striking;
mod suspension;
mod tally;

use tally::Tally;

fn main(rt: HostRuntime) -> anyhow::Result<()> {
    let mut tally = Tally::new(&rt);
    openings::play(&mut tally)?;
    limits::play(&mut tally)?;
    margins::play(&mut tally)?;
    accounts::play(&mut tally)?;
    reductions::play(&mut tally)?;
    striking::play(&mut tally)?;
    orders::play(&mut tally)?;
    shares::play(&mut tally)?;
    sheets::play(&mut tally)?;
    one_book::play(&mut tally)?;
    println!(rt; "{tally} sessions without words agree")?;
    Ok(())
}
