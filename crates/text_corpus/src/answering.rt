// The answers to the texts of a corpus.
ghost use Rattle.std.specs.Prelude.{◌≡◌, ◌≤◌, [], ◌++◌, length, IfOk, OnOk};
ghost use Rattle.text_call.specs.Faults.{least_room};
ghost use Rattle.text_corpus.specs.Corpus.{entry_bytes, answered, Answers};
ghost use Rattle.text_corpus.specs.Views.{entry_view};

use crate::entry::{Entry, read_entry, write_entry};
use crate::fault::CorpusFault;
use std::alloc::{AllocError, Global};
use text_call::answer_any_text;

// Writes the entry of an answer behind those that are written.
fn answer_entry(
    heap: Global,
    entry: &Entry<'_>,
    room: &mut [u8],
    written: &mut Vec<u8>,
) -> Result<(), AllocError>
    requires { least_room ≤ length room.old }
    ensures { OnOk result (written.new.items
        ≡ written.old.items ++ entry_bytes (answered (entry_view entry.now))) }
{
    let size = answer_any_text(entry.text, room);
    write_entry(heap, entry.name, &room[..size], written)
}

// The corpus of the answers to a corpus of texts; each is written in the room first.
pub fn answer_corpus(heap: Global, corpus: &[u8], room: &mut [u8]) -> Result<Vec<u8>, CorpusFault>
    requires { least_room ≤ length room.old }
    ensures { IfOk result (λ written. Answers corpus.now [] written.items) }
{
    let mut written = Vec::new(heap);
    let mut rest = corpus;
    while !rest.is_empty() {
        let (entry, others) = read_entry(rest)?;
        answer_entry(heap, &entry, room, &mut written)?;
        rest = others;
    }
    Ok(written)
}
