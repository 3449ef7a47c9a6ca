//! The runs of worked frames.

use pdh_eframes::{E2, E4};
use pdh_runs::{Run, runs};
use std::test::Fail;

// A run of so many slots of each kind.
fn run(overhead: u32, payload: u32) -> Run {
    Run { overhead, payload }
}

#[test]
fn the_four_runs_of_the_second_order(rt: HostRuntime) -> Result<(), Fail> {
    let runs = runs::<E2>(rt.alloc())?;
    let expected = [run(12, 200), run(4, 208), run(4, 208), run(4, 208)];
    assert!(rt; runs.as_slice() == expected.as_slice());
    Ok(())
}

#[test]
fn the_runs_of_the_fourth_order(rt: HostRuntime) -> Result<(), Fail> {
    let runs = runs::<E4>(rt.alloc())?;
    assert!(rt; runs.len() == 6);
    assert!(rt; [runs[0], runs[5]] == [run(16, 472), run(4, 484)]);
    Ok(())
}
