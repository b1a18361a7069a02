// A call on a sheet, as data.

#[derive(Clone, Copy, PartialEq, Eq, Hash, Debug)]
pub enum SheetCall {
    // any two numbers that a caller hands in: the place, and the mark
    Mark(u32, u32),
    Undo,
    Set,
    Reopen,
}
