// The columns of a sum with a wide gap, from the top down: what each adds, and the two ends between which the sum lies.

use batch::Batch;
use column::CountedTerms;
use list_batch::{ListBatch, Scaled};
use sheet::sheet::OpenSheet;
use std::io;

// Prints one column's work, and how far the ends lie from the sum as far as this column.
fn show(
    rt: &impl Print,
    column: i32,
    total: i64,
    below: usize,
    next: Option<i32>,
) -> io::Result<()> {
    let weight = 32 * i64::from(column);
    match next {
        Some(lower) => {
            let bound = 32 * (i64::from(lower) + 1);
            println!(rt;
                "  column {column}: P gains {total} * 2^{weight}; ends P - {below} * 2^{bound} and P + {below} * 2^{bound}"
            )
        }
        None => println!(rt;
            "  column {column}: P gains {total} * 2^{weight}; both ends are P, the exact sum"
        ),
    }
}

fn down<B: Batch>(rt: &impl Print, counted: &CountedTerms, batch: &B) -> io::Result<()> {
    let mut here = counted.first_column(batch);
    while let Some(column) = here {
        let (total, below) = counted.column_work(batch, column);
        let next = counted.next_column(batch, column);
        show(rt, column, total, below, next)?;
        here = next;
    }
    Ok(())
}

pub fn walk(rt: &impl Print) -> io::Result<()> {
    println!(rt; "columns of 3 - 2^-2000")?;
    let records = [Scaled::new(3, 0), Scaled::new(-1, -2000)];
    let mut sheet = OpenSheet::new();
    let _ = sheet.mark(0, 1);
    let _ = sheet.mark(1, 1);
    let set = sheet.set();
    match ListBatch::open(&records) {
        Ok(opened) => down(rt, &CountedTerms::new(&opened, set.marks()), &opened),
        Err(_) => println!(rt; "  refused"),
    }
}
