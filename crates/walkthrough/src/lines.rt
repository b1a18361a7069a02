// Lines of an answer, and of batches and grids that are refused.

use ask::{Answer, AskFault};
use batch::BatchFault;
use grid::GridFault;
use std::io;

// Prints the limbs of an answer, the least significant first.
fn answer_limbs(rt: &impl Print, precision: u32, limbs: &[u32]) -> io::Result<()> {
    for limb in limbs.iter().take(precision.div_ceil(32) as usize) {
        print!(rt; " {limb:08x}")?;
    }
    Ok(())
}

// Prints an answer, or why there is none.
pub fn answer(
    rt: &impl Print,
    returned: Result<Answer, AskFault>,
    limbs: &[u32],
) -> io::Result<()> {
    match returned {
        Ok(
            Answer {
                kind,
                exponent,
                precision,
                direction,
                depth,
            },
        ) => {
            print!(rt;
                "kind {}, exponent {exponent}, precision {precision}, limbs",
                kind.number()
            )?;
            answer_limbs(rt, precision, limbs)?;
            println!(rt; ", {direction}, depth {depth}")
        }
        Err(fault) => println!(rt; "refused, {} at {}", fault.number(), fault.place()),
    }
}

// Prints why there is no batch.
pub fn refused_batch(rt: &impl Print, name: &str, fault: BatchFault) -> io::Result<()> {
    println!(rt;
        "  {name}: refused, {} at {}",
        fault.number(),
        fault.place()
    )
}

// Prints why there is no grid.
pub fn refused_grid(rt: &impl Print, name: &str, fault: GridFault) -> io::Result<()> {
    println!(rt; "  {name}: refused, {}", fault.number())
}
