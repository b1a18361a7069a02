// Sums that are given by lines: reads a case from each line of standard input, asks, and writes what came of it as a line.
//
// A case is a mode, the width of a free grid, and the terms, all parted by single spaces:
//
//     MODE WIDTH TERM TERM ..
//
// A term is the number of its kind, and for a regular one then its exponent, its precision and its limbs:
//
//     KIND                          0 nan, 1 +inf, 2 -inf, 3 +0, 4 -0
//     KIND EXPONENT PRECISION LIMB ..   5 positive, 6 negative
//
// Numbers are decimal; the limbs are hexadecimal, the least significant first, as many as the precision takes. All terms count.
//
// What is written of a case is its answer, or the number of the refusal:
//
//     KIND EXPONENT PRECISION DIRECTION LIMB ..
//     no NUMBER
//
// The direction is -1, 0 or 1. The limbs are those of the precision, eight digits each: none where the answer is not regular.
#![tactic(auto)]

mod answering;
mod case;
mod fault;
mod reading;
mod words;
mod writing;

use crate::answering::answer_line;
use crate::reading::read_case;
use std::io::{BufRead, BufReader};

fn run(rt: &HostRuntime) -> anyhow::Result<()> {
    let heap = rt.alloc();
    for line in BufReader::new(heap, rt.stdin())?.lines(heap) {
        let text = line?;
        let case = read_case(heap, text.as_str())?;
        rt.println(answer_line(heap, &case)?)?;
    }
    Ok(())
}

fn main(rt: HostRuntime) -> anyhow::Result<()> {
    run(&rt)
}
