// A batch that gives five answers alone: a run of its digits, of a place without a term, and past the lowest column.
use crate::FiveHalves;
use batch::{Batch, regular_count};

#[test]
fn run_of_digits(rt: HostRuntime) {
    let batch = FiveHalves {};
    assert_eq!(rt; (batch.count(), regular_count(&batch)), (1, 1));
    let mut digits = [9; 4];
    batch.digits(0, 1, &mut digits);
    assert_eq!(rt; digits, [0, 2, 0x8000_0000, 0]);
    batch.digits(1, 1, &mut digits);
    assert_eq!(rt; digits, [0; 4]);
    let mut lowest = [9; 4];
    batch.digits(0, i32::MIN + 1, &mut lowest);
    assert_eq!(rt; lowest, [0; 4]);
}
