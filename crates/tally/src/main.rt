// The program tally: a text of forms on standard input, its answer on standard output. `tally --help` tells the forms.
#![tactic(auto)]

mod answering;
mod help;

use crate::answering::answered;
use crate::help::{HELP, asks_for_help};
use std::env;
use std::io::{self, Read, Write};
use text_call::LONGEST_TEXT;

// Reads no more of a text than it takes to know that it is too long.
fn answer_input(rt: &HostRuntime) -> io::Result<()> {
    let mut text = Vec::new(rt.alloc());
    rt.stdin()
        .take(LONGEST_TEXT as u64 + 1)
        .read_to_end(&mut text)?;
    let answer = answered(rt.alloc(), &text)?;
    rt.stdout().write_all(&answer)
}

// Whether the first argument asks for help.
fn is_help_wanted(rt: &HostRuntime) -> io::Result<bool> {
    let first = env::args(rt)?.nth(1);
    Ok(first.is_some_and(|argument| asks_for_help(argument.as_str())))
}

fn main(rt: HostRuntime) -> io::Result<()> {
    if is_help_wanted(&rt)? {
        return print!(rt; "{HELP}");
    }
    answer_input(&rt)
}
