// List batches: the edges of binary64, of 64-bit counts and of the number of terms.
use batch::{Batch, BatchFault, Kind, regular_count};
use list_batch::{ListBatch, Pair, Row, Scaled};
use std::test::Fail;

fn row(head: u64, tail: u64) -> Row {
    Row { head, tail }
}

#[test]
fn regular_doubles(rt: HostRuntime) -> Result<(), Fail> {
    // Smallest and largest subnormal, smallest normal and largest double.
    let rows = [
        row(1, 0x800F_FFFF_FFFF_FFFF),
        row(0x0010_0000_0000_0000, 0x7FEF_FFFF_FFFF_FFFF),
    ];
    let batch = ListBatch::open(&rows)?;
    assert_eq!(rt; (batch.count(), regular_count(&batch)), (4, 4));
    assert_eq!(rt;
        (batch.kind(0), batch.low(0), batch.top(0)),
        (Kind::Positive, -1074, -1073)
    );
    assert_eq!(rt;
        (batch.kind(1), batch.low(1), batch.top(1)),
        (Kind::Negative, -1074, -1022)
    );
    assert_eq!(rt; (batch.low(2), batch.top(2)), (-1074, -1021));
    assert_eq!(rt; (batch.low(3), batch.top(3)), (971, 1024));
    // Weight -1074 is bit 14 of column -34.
    assert_eq!(rt; (batch.digit(0, -34), batch.digit(0, -33)), (0x4000, 0));
    assert_eq!(rt;
        (batch.digit(1, -34), batch.digit(1, -33)),
        (0xFFFF_C000, 0xFFFF_FFFF)
    );
    assert_eq!(rt; (batch.digit(1, -32), batch.digit(1, -31)), (3, 0));
    assert_eq!(rt;
        (batch.digit(3, 31), batch.digit(3, 30)),
        (0xFFFF_FFFF, 0xFFFF_F800)
    );
    assert_eq!(rt;
        (batch.digit(3, i32::MAX), batch.digit(3, i32::MIN)),
        (0, 0)
    );
    Ok(())
}

#[test]
fn other_doubles(rt: HostRuntime) -> Result<(), Fail> {
    let rows = [
        row(0, 0x8000_0000_0000_0000),
        row(0x7FF0_0000_0000_0000, 0xFFF0_0000_0000_0000),
        row(0x7FF0_0000_0000_0001, 0x7FF8_0000_0000_0000),
        row(0xFFFF_FFFF_FFFF_FFFF, 0),
    ];
    let batch = ListBatch::open(&rows)?;
    assert_eq!(rt; regular_count(&batch), 0);
    assert_eq!(rt;
        (batch.kind(0), batch.kind(1)),
        (Kind::PositiveZero, Kind::NegativeZero)
    );
    assert_eq!(rt;
        (batch.kind(2), batch.kind(3)),
        (Kind::PositiveInfinity, Kind::NegativeInfinity)
    );
    assert_eq!(rt;
        (batch.kind(4), batch.kind(5)),
        (Kind::NotANumber, Kind::NotANumber)
    );
    assert_eq!(rt;
        (batch.kind(6), batch.kind(8)),
        (Kind::NotANumber, Kind::Absent)
    );
    assert_eq!(rt; (batch.low(2), batch.top(3), batch.digit(4, 0)), (0, 0, 0));
    Ok(())
}

#[test]
fn pairs_of_floats(rt: HostRuntime) {
    let ordinary = Pair {
        head: -1.5,
        tail: -0.0,
    };
    let bits = ordinary.row();
    assert_eq!(rt;
        (bits.head, bits.tail),
        (0xBFF8_0000_0000_0000, 0x8000_0000_0000_0000)
    );
    let infinite = 1.0 / 0.0;
    let strange = Pair {
        head: 0.0 / 0.0,
        tail: infinite - infinite,
    };
    let bits = strange.row();
    assert_eq!(rt;
        (bits.head, bits.tail),
        (0x7FF8_0000_0000_0000, 0x7FF8_0000_0000_0000)
    );
}

#[test]
fn scaled_counts(rt: HostRuntime) -> Result<(), Fail> {
    let records = [
        Scaled::new(i64::MIN, 0),
        Scaled::new(i64::MAX, i16::MAX),
        Scaled::new(0, i16::MIN),
        Scaled::new(-1, i16::MIN),
    ];
    let batch = ListBatch::open(&records)?;
    assert_eq!(rt; (batch.count(), regular_count(&batch)), (4, 3));
    assert_eq!(rt;
        (batch.kind(0), batch.low(0), batch.top(0)),
        (Kind::Negative, 0, 64)
    );
    assert_eq!(rt; (batch.digit(0, 0), batch.digit(0, 1)), (0, 0x8000_0000));
    assert_eq!(rt; (batch.low(1), batch.top(1)), (32767, 32830));
    assert_eq!(rt; (batch.kind(2), batch.top(2)), (Kind::PositiveZero, 0));
    assert_eq!(rt; (batch.low(3), batch.top(3)), (-32768, -32767));
    assert_eq!(rt; (batch.digit(3, -1024), batch.digit(3, -1025)), (1, 0));
    Ok(())
}

#[test]
fn how_many_terms(rt: HostRuntime) -> Result<(), Fail> {
    let one = Scaled::new(1, 0);
    let fitting = [one; 1024];
    assert_eq!(rt; ListBatch::open(&fitting)?.count(), 1024);
    let many = [one; 1025];
    assert!(rt; refused(ListBatch::open(&many)));
    let rows = [row(0, 0); 512];
    assert_eq!(rt; ListBatch::open(&rows)?.count(), 1024);
    let many_rows = [row(0, 0); 513];
    assert!(rt; refused(ListBatch::open(&many_rows)));
    Ok(())
}

fn refused<T: Drop>(opened: Result<T, BatchFault>) -> bool {
    opened
        .err()
        .is_some_and(|fault| (fault.number(), fault.place()) == (1, 0))
}
