// Limb batches: the shortest and longest significands, the farthest exponents, and each fault.
use batch::{Batch, BatchFault, Kind, regular_count};
use limb_batch::{LimbBatch, LimbRecord};
use std::test::Fail;

const TOP_BIT: u32 = 0x8000_0000;

const ZERO: LimbRecord = LimbRecord {
    kind: 3,
    exponent: 0,
    precision: 0,
    place: 0,
};

fn positive(exponent: i64, precision: u64, place: usize) -> LimbRecord {
    LimbRecord::new(Kind::Positive, exponent, precision, place)
}

#[test]
fn short_significands(rt: HostRuntime) {
    let pool = [TOP_BIT + 1, TOP_BIT, TOP_BIT];
    let records = [positive(1, 1, 1), positive(32, 32, 0), positive(33, 33, 1)];
    let (batch, fault) = LimbBatch::open(&records, &pool);
    assert_eq!(rt; fault, None);
    assert_eq!(rt; batch.count(), 3);
    assert_eq!(rt; regular_count(&batch), 3);
    assert_eq!(rt; (batch.low(0), batch.top(0), batch.digit(0, 0)), (0, 1, 1));
    assert_eq!(rt; (batch.low(1), batch.top(1)), (0, 32));
    assert_eq!(rt; batch.digit(1, 0), TOP_BIT + 1);
    assert_eq!(rt; (batch.low(2), batch.top(2)), (0, 33));
    assert_eq!(rt; (batch.digit(2, 0), batch.digit(2, 1)), (1, 1));
    assert_eq!(rt; (batch.digit(2, -1), batch.digit(2, 2)), (0, 0));
    assert_eq!(rt; (batch.kind(3), batch.top(3)), (Kind::Absent, 0));
}

#[test]
fn longest_significand(rt: HostRuntime) {
    let mut pool = [0; 128];
    pool[0] = 1;
    pool[127] = TOP_BIT;
    let records = [positive(4096, 4096, 0), positive(4095, 4096, 0)];
    let (batch, fault) = LimbBatch::open(&records, &pool);
    assert_eq!(rt; fault, None);
    assert_eq!(rt; (batch.low(0), batch.top(0)), (0, 4096));
    assert_eq!(rt; (batch.digit(0, 0), batch.digit(0, 127)), (1, TOP_BIT));
    assert_eq!(rt; (batch.low(1), batch.top(1)), (-1, 4095));
    assert_eq!(rt;
        (batch.digit(1, -1), batch.digit(1, 127)),
        (TOP_BIT, TOP_BIT / 2)
    );
}

#[test]
fn farthest_exponents(rt: HostRuntime) {
    let pool = [TOP_BIT];
    let records = [
        positive(1_000_000_000, 1, 0),
        positive(-1_000_000_000, 1, 0),
    ];
    let (batch, fault) = LimbBatch::open(&records, &pool);
    assert_eq!(rt; fault, None);
    assert_eq!(rt; (batch.low(0), batch.top(0)), (999_999_999, 1_000_000_000));
    assert_eq!(rt;
        (batch.low(1), batch.top(1)),
        (-1_000_000_001, -1_000_000_000)
    );
    assert_eq!(rt;
        (batch.digit(0, 31_249_999), batch.digit(0, 31_250_000)),
        (TOP_BIT, 0)
    );
    assert_eq!(rt;
        (batch.digit(1, -31_250_001), batch.digit(1, -31_250_000)),
        (TOP_BIT, 0)
    );
    assert_eq!(rt;
        (batch.digit(0, i32::MAX), batch.digit(0, i32::MIN)),
        (0, 0)
    );
    assert_eq!(rt;
        (batch.digit(1, i32::MAX), batch.digit(1, i32::MIN)),
        (0, 0)
    );
}

// The number and the place of the fault of a record that stands after a zero.
fn fault_after_zero(record: LimbRecord, pool: &[u32]) -> Option<(u32, usize)> {
    let records = [ZERO, record];
    let (_, fault) = LimbBatch::open(&records, pool);
    fault.map(|fault| (fault.number(), fault.place()))
}

#[test]
fn faults_in_their_order(rt: HostRuntime) {
    let pool = [TOP_BIT, TOP_BIT - 1];
    let mut unknown = ZERO;
    unknown.kind = 7;
    assert_eq!(rt; fault_after_zero(unknown, &pool), Some((2, 1)));
    assert_eq!(rt;
        fault_after_zero(positive(i64::MAX, 0, 9), &pool),
        Some((3, 1))
    );
    assert_eq!(rt;
        fault_after_zero(positive(i64::MIN, 4097, 9), &pool),
        Some((3, 1))
    );
    assert_eq!(rt;
        fault_after_zero(positive(1_000_000_001, 4096, 9), &pool),
        Some((4, 1))
    );
    assert_eq!(rt;
        fault_after_zero(positive(-1_000_000_001, 1, 0), &pool),
        Some((4, 1))
    );
    assert_eq!(rt;
        fault_after_zero(positive(0, 1, usize::MAX), &pool),
        Some((5, 1))
    );
    assert_eq!(rt; fault_after_zero(positive(0, 33, 1), &pool), Some((5, 1)));
    assert_eq!(rt; fault_after_zero(positive(0, 1, 1), &pool), Some((6, 1)));
    assert_eq!(rt; fault_after_zero(positive(0, 1, 0), &pool), None);
    assert_eq!(rt;
        fault_after_zero(positive(0, 31, 0), &[TOP_BIT + 1]),
        Some((7, 1))
    );
}

#[test]
fn too_many_records(rt: HostRuntime) -> Result<(), Fail> {
    let pool = [0; 1];
    let fitting = [ZERO; 1024];
    let (batch, fault) = LimbBatch::open(&fitting, &pool);
    assert_eq!(rt; (batch.count(), fault), (1024, None));
    assert_eq!(rt; LimbBatch::try_open(&fitting, &pool)?.count(), 1024);
    let mut records = [ZERO; 1025];
    records[0].kind = 7;
    let (batch, fault) = LimbBatch::open(&records, &pool);
    assert_eq!(rt; batch.count(), 0);
    let fault = fault.ok_or("not refused")?;
    assert_eq!(rt; fault, BatchFault::TooManyTerms);
    assert_eq!(rt; (fault.number(), fault.place()), (1, 0));
    let refused = LimbBatch::try_open(&records, &pool).err();
    assert_eq!(rt; refused, Some(fault));
    assert_eq!(rt; LimbBatch::try_open(&records[..0], &pool)?.count(), 0);
    Ok(())
}
