// Lists of calls, asks among them.
use ask_history::call::{Asking, Call};
use ask_history::no_terms::NoTerms;
use ask_history::outcome::Outcome;
use ask_history::run::run;
use grid::FreeGrid;
use history::call::SheetCall;
use history::outcome::CallFault;
use sheet::mark::Mark;
use sheet::marked::MarkedSheet;

// The number of a refusal; 0 where the call was done, and 1 where it was answered.
fn number(outcome: &Outcome) -> u32 {
    match outcome {
        Ok(None) => 0,
        Ok(Some(_)) => 1,
        Err(fault) => fault.number(),
    }
}

// An ask of the nearest number of 8 bits in one limb.
fn nearest(grid: FreeGrid) -> Asking<FreeGrid> {
    Asking {
        batch: 0,
        grid,
        mode: 0,
        limbs: 1,
    }
}

#[test]
fn room_for_fewer_outcomes(rt: HostRuntime) {
    let none = NoTerms {};
    let calls: [Call<FreeGrid>; 3] = [
        SheetCall::Mark(9, 1).into(),
        SheetCall::Set.into(),
        SheetCall::Undo.into(),
    ];
    let mut outcomes = [Err(CallFault::OutOfTurn.into()); 2];
    let sheet = run(&[&none], &calls, &mut outcomes);
    assert_eq!(rt; number(&outcomes[0]), 0);
    assert_eq!(rt; number(&outcomes[1]), 0);
    assert_eq!(rt; sheet.mark_at(9), Mark::In);
}

// No such mode, too few limbs, and a marked place for which there is no term: past the last batch there is none at all.
#[test]
fn asks_refused(rt: HostRuntime) {
    let none = NoTerms {};
    let Ok(grid) = FreeGrid::new(33) else {
        assert!(rt; false);
        return;
    };
    let no_mode = Asking {
        mode: 5,
        ..nearest(grid)
    };
    let no_terms = Asking {
        batch: 1,
        limbs: 2,
        ..nearest(grid)
    };
    let calls = [
        SheetCall::Mark(7, 1).into(),
        SheetCall::Set.into(),
        Call::Ask(no_mode),
        Call::Ask(nearest(grid)),
        Call::Ask(no_terms),
    ];
    let mut outcomes = [Ok(None); 5];
    run(&[&none], &calls, &mut outcomes);
    assert_eq!(rt; number(&outcomes[2]), 15);
    assert_eq!(rt; number(&outcomes[3]), 16);
    match outcomes[4] {
        Err(fault) => {
            assert_eq!(rt; fault.number(), 17);
            assert_eq!(rt; fault.place(), 7);
        }
        Ok(_) => assert!(rt; false),
    }
}
