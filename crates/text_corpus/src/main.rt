// Answers a corpus of texts: reads them all from standard input, and writes the answer to each.
//
// A corpus is entries, one behind the other. An entry is a line `= NAME LENGTH`, so many bytes of text, and byte 10:
//
//     = one-ask 41
//     (term + 1 1 (80000000))
//     (set)
//     (ask 1 free N)
//
// What is written has the same form: the names of the texts, and the answer in place of each. One that is too long is
// answered by its refusal.
#![tactic(auto)]

mod answering;
mod entry;
mod fault;

use crate::answering::answer_corpus;
use std::io::{Read, Write};
use text_call::LEAST_ROOM;

fn run(rt: &HostRuntime) -> anyhow::Result<()> {
    let heap = rt.alloc();
    let mut corpus = Vec::new(heap);
    rt.stdin().read_to_end(&mut corpus)?;
    let mut room = vec![in heap; 0u8; LEAST_ROOM]?;
    let answers = answer_corpus(heap, &corpus, &mut room)?;
    rt.stdout().write_all(&answers)?;
    Ok(())
}

fn main(rt: HostRuntime) -> anyhow::Result<()> {
    run(&rt)
}
