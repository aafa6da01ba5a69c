//! Two solvers of double dummy who share a memo. A program makes them only for a search that takes
//! long.
use crate::endings::{LEFT, ending, spades};
use dd_solver::{SharedMemo, Solver};
use std::process::Abort;
use std::sync::Arc;
use std::test::Fail;

// Two tricks are one too many.
fn assert_one_trick(rt: &impl Abort, solver: &mut Solver) {
    let left = spades(LEFT);
    for need in [1, 2] {
        let position = ending(rt, need);
        assert!(rt; position.fits(left));
        assert_eq!(rt; solver.makes(&position, left), need == 1);
    }
}

#[test]
fn two_solvers_share_a_memo(rt: HostRuntime) -> Result<(), Fail> {
    let alloc = rt.alloc();
    let memo = Arc::new(alloc, SharedMemo::new(alloc)?)?;
    let mut first = Solver::sharing(alloc, Arc::try_clone(&memo)?);
    let mut second = Solver::sharing(alloc, memo);
    assert_one_trick(&rt, &mut first);
    assert_one_trick(&rt, &mut second);
    Ok(())
}
