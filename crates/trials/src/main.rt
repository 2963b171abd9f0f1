//! Plays each list of words in the data folder through the engine, and compares what it answers with what it should.

#![tactic(auto)]

use engine::list::answer_list;
use engine::words::words_of;
use std::alloc::Global;
use std::fs;

/// Whether a list is answered as its file says.
fn agrees(rt: &HostRuntime, heap: Global, name: &str) -> anyhow::Result<bool> {
    let words = format!(in heap; "{name}.words")?;
    let out = format!(in heap; "{name}.out")?;
    let bytes = fs::read(rt, words.as_str())?;
    let expected = fs::read_to_string(rt, out.as_str())?;
    let words = words_of(heap, bytes.as_slice())?;
    let transcript = answer_list(heap, words.as_slice())?;
    let text = format!(in heap; "{transcript}")?;
    Ok(text.as_str() == expected.as_str())
}

fn main(rt: HostRuntime) -> anyhow::Result<()> {
    let heap = rt.alloc();
    let names = fs::read_to_string(&rt, "cases.txt")?;
    // typed_trials counts so too: a library of its own for two counters is no plainer.
    let mut all: u32 = 0;
    let mut agreed: u32 = 0;
    for name in names.as_str().lines() {
        all = all.saturating_add(1);
        if agrees(&rt, heap, name)? {
            agreed = agreed.saturating_add(1);
            println!(rt; "agrees: {name}")?;
        } else {
            println!(rt; "DIFFERS: {name}")?;
        }
    }
    println!(rt; "{agreed} of {all} lists agree")?;
    Ok(())
}
