//! The console: words on standard input, answers and the sheet on standard output.

#![tactic(auto)]

use engine::list::answer_list;
use engine::words::words_of;
use std::alloc::Global;
use std::io::Read;

/// As much as is read: a little more than the longest list. A longer one is refused whole, so no more of it need be read.
const MOST_BYTES: u64 = 0x1_1000;

/// Reads the input, up to its end or past the longest list.
fn read_input(rt: &HostRuntime, heap: Global) -> anyhow::Result<Vec<u8>> {
    let mut bytes = Vec::new(heap);
    rt.stdin().take(MOST_BYTES).read_to_end(&mut bytes)?;
    Ok(bytes)
}

fn main(rt: HostRuntime) -> anyhow::Result<()> {
    let heap = rt.alloc();
    let bytes = read_input(&rt, heap)?;
    let words = words_of(heap, bytes.as_slice())?;
    let transcript = answer_list(heap, words.as_slice())?;
    let text = format!(in heap; "{transcript}")?;
    rt.print(text.as_str())?;
    Ok(())
}
