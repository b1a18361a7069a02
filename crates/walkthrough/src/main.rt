// Makes entries from their terms to their answers, then goes through refused marks and undos, a list of calls without asks, and
// some grids, batches and columns; prints each call and what came of it.
#![tactic(auto)]

mod asked_list;
mod asks;
mod batches;
mod columns;
mod grids;
mod lines;
mod refusals;
mod sheet_list;

use std::io;

fn main(rt: HostRuntime) -> io::Result<()> {
    asks::walk(&rt)?;
    asked_list::walk(&rt)?;
    refusals::walk(&rt)?;
    sheet_list::walk(&rt)?;
    grids::walk(&rt)?;
    batches::walk(&rt)?;
    columns::walk(&rt)
}
