// Tests at the edges of what a sheet takes. The contracts say it for all numbers; these show it run.
#![tactic(auto)]

#[cfg(test)]
mod tests {
    use history::call::SheetCall;
    use history::outcome::CallFault;
    use history::run::run;
    use sheet::fault::SheetFault;
    use sheet::mark::Mark;
    use sheet::marked::MarkedSheet;
    use sheet::sheet::OpenSheet;

    #[test]
    fn last_place_and_last_mark(rt: HostRuntime) {
        let mut sheet = OpenSheet::new();
        assert_eq!(rt; sheet.mark(1023, 2), Ok(()));
        assert_eq!(rt; sheet.mark_at(1023), Mark::Turned);
        assert_eq!(rt; sheet.mark(1024, 3), Err(SheetFault::NoSuchPlace));
        assert_eq!(rt; sheet.mark(1023, 3), Err(SheetFault::NoSuchMark));
        assert_eq!(rt; sheet.mark_at(1024), Mark::Out);
    }

    #[test]
    fn longest_trail(rt: HostRuntime) {
        let mut sheet = OpenSheet::new();
        for place in 0..256u32 {
            assert_eq!(rt; sheet.mark(place, 1), Ok(()));
        }
        assert_eq!(rt; sheet.mark(256, 1), Err(SheetFault::TrailFull));
        assert_eq!(rt; sheet.mark(1024, 1), Err(SheetFault::NoSuchPlace));
        for _ in 0..256u32 {
            assert_eq!(rt; sheet.undo(), Ok(()));
        }
        assert_eq!(rt; sheet.undo(), Err(SheetFault::TrailEmpty));
        assert_eq!(rt; sheet.mark_at(0), Mark::Out);
    }

    #[test]
    fn room_for_fewer_outcomes(rt: HostRuntime) {
        let calls = [SheetCall::Mark(9, 1), SheetCall::Set, SheetCall::Undo];
        let mut outcomes = [Err(CallFault::OutOfTurn); 2];
        let sheet = run(&calls, &mut outcomes);
        assert_eq!(rt; outcomes, [Ok(()); 2]);
        assert_eq!(rt; sheet.mark_at(9), Mark::In);
    }
}
