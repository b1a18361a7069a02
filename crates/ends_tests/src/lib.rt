// Examples of rounding one end, each proved and run.
#![tactic(auto)]

// Each case is written out: a function for all would have to repeat whatever `round_end` requires.
#[cfg(test)]
mod tests {
    use ends::{Direction, End, Extent, RoundedEnd, round_end};
    use grid::{FlooredGrid, FreeGrid, Mode, Rounding};
    use std::test::Fail;

    const UNDETERMINED: &str = "nothing was told";

    // 5 lies in the middle of 4 and 6, which are 2 and 3 steps of 2.
    #[test]
    fn tie_goes_to_the_even_step(rt: HostRuntime) -> Result<(), Fail> {
        let grid = FreeGrid::new(2)?;
        let rounding = Rounding {
            grid: &grid,
            mode: Mode::Nearest,
        };
        let end = End {
            negative: false,
            whole: &[5],
            column: 0,
            partial: false,
        };
        let mut answer = [7u32; 4];
        let placed = round_end(end, rounding, &mut answer).ok_or(UNDETERMINED)?;
        let told = RoundedEnd {
            negative: false,
            direction: Direction::Below,
            extent: Some(Extent {
                exponent: 3,
                precision: 2,
            }),
        };
        assert_eq!(rt; placed.rounded, told);
        assert_eq!(rt; answer[0], 0x8000_0000);
        assert_eq!(rt; answer[1], 0);
        Ok(())
    }

    // -7 goes to -8, which has one bit more.
    #[test]
    fn raised_bits_carry(rt: HostRuntime) -> Result<(), Fail> {
        let grid = FreeGrid::new(2)?;
        let rounding = Rounding {
            grid: &grid,
            mode: Mode::Nearest,
        };
        let end = End {
            negative: true,
            whole: &[7],
            column: 0,
            partial: false,
        };
        let mut answer = [7u32; 4];
        let placed = round_end(end, rounding, &mut answer).ok_or(UNDETERMINED)?;
        let told = RoundedEnd {
            negative: true,
            direction: Direction::Below,
            extent: Some(Extent {
                exponent: 4,
                precision: 2,
            }),
        };
        assert_eq!(rt; placed.rounded, told);
        assert_eq!(rt; answer[0], 0x8000_0000);
        Ok(())
    }

    // 40 bits of an end whose lowest bit, with what is left over, raises them.
    #[test]
    fn three_limbs_are_cut_to_two(rt: HostRuntime) -> Result<(), Fail> {
        let grid = FreeGrid::new(40)?;
        let rounding = Rounding {
            grid: &grid,
            mode: Mode::Upward,
        };
        let end = End {
            negative: false,
            whole: &[1, 0, 1],
            column: -3,
            partial: true,
        };
        let mut answer = [7u32; 4];
        let placed = round_end(end, rounding, &mut answer).ok_or(UNDETERMINED)?;
        let told = RoundedEnd {
            negative: false,
            direction: Direction::Above,
            extent: Some(Extent {
                exponent: -31,
                precision: 40,
            }),
        };
        assert_eq!(rt; placed.rounded, told);
        assert_eq!(rt; answer[0], 0x0100_0000);
        assert_eq!(rt; answer[1], 0x8000_0000);
        assert_eq!(rt; answer[2], 0);
        Ok(())
    }

    // Something between -2 ^ -1088 and 0 goes away from 0 to the first number of the grid.
    #[test]
    fn a_part_alone_is_one_step(rt: HostRuntime) -> Result<(), Fail> {
        let grid = FlooredGrid::new(53, -1074)?;
        let rounding = Rounding {
            grid: &grid,
            mode: Mode::AwayFromZero,
        };
        let end = End {
            negative: true,
            whole: &[0],
            column: -34,
            partial: true,
        };
        let mut answer = [7u32; 2];
        let placed = round_end(end, rounding, &mut answer).ok_or(UNDETERMINED)?;
        let told = RoundedEnd {
            negative: true,
            direction: Direction::Below,
            extent: Some(Extent {
                exponent: -1073,
                precision: 1,
            }),
        };
        assert_eq!(rt; placed.rounded, told);
        assert_eq!(rt; answer[0], 0x8000_0000);
        assert_eq!(rt; answer[1], 0);
        Ok(())
    }

    // -2 ^ -1088 goes to 0, whose exponent is that of a step of the grid, and which has no bits.
    #[test]
    fn a_zero_has_the_spacing_as_its_exponent(rt: HostRuntime) -> Result<(), Fail> {
        let grid = FlooredGrid::new(53, -1074)?;
        let rounding = Rounding {
            grid: &grid,
            mode: Mode::Nearest,
        };
        let end = End {
            negative: true,
            whole: &[1],
            column: -34,
            partial: false,
        };
        let mut answer = [7u32; 2];
        let placed = round_end(end, rounding, &mut answer).ok_or(UNDETERMINED)?;
        let told = RoundedEnd {
            negative: true,
            direction: Direction::Above,
            extent: None,
        };
        assert_eq!(rt; placed.rounded, told);
        assert_eq!(rt; placed.exponent(), -1074);
        assert_eq!(rt; placed.precision(), 0);
        assert_eq!(rt; answer[0], 0);
        assert_eq!(rt; answer[1], 0);
        Ok(())
    }

    // What is left over is below 2 ^ -1088, which is itself on the grid.
    #[test]
    fn a_fine_grid_leaves_it_undetermined(rt: HostRuntime) -> Result<(), Fail> {
        let grid = FlooredGrid::new(53, -1088)?;
        let rounding = Rounding {
            grid: &grid,
            mode: Mode::AwayFromZero,
        };
        let end = End {
            negative: true,
            whole: &[5],
            column: -34,
            partial: true,
        };
        let mut answer = [7u32; 2];
        assert_eq!(rt; round_end(end, rounding, &mut answer), None);
        assert_eq!(rt; answer[0], 7);
        Ok(())
    }
}
