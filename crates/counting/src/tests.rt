// The solver on examples.
use crate::CountingSolver;
use faults::SolverFault;
use solver::Solver;
use solver::compare::equal_over;
use std::test::Fail;

// Exactly one of the variables 1 and 2 is true.
const ONE_OF_TWO: [u16; 6] = [2, 2, 4, 2, 3, 5];

#[test]
fn a_model_is_kept_and_flipped(rt: HostRuntime) -> Result<(), Fail> {
    let mut solver = CountingSolver::new(rt.alloc())?;
    assert_eq!(rt; solver.value(1), Err(SolverFault::NothingKept));
    assert_eq!(rt; solver.search(2, &ONE_OF_TWO, &[2]), Ok(true));
    assert_eq!(rt; solver.value(2), Ok(false));
    assert_eq!(rt; solver.value(3), Err(SolverFault::NoVariable));
    assert_eq!(rt; solver.flip(2, &ONE_OF_TWO), Ok(false));
    assert_eq!(rt; solver.flip(2, &[2, 2, 4]), Ok(true));
    assert_eq!(rt; solver.value(2), Ok(true));
    Ok(())
}

#[test]
fn searches_without_a_model_or_refused(rt: HostRuntime) -> Result<(), Fail> {
    let mut solver = CountingSolver::new(rt.alloc())?;
    assert_eq!(rt; solver.search(2, &ONE_OF_TWO, &[3]), Ok(true));
    assert_eq!(rt;
        solver.search(1, &ONE_OF_TWO, &[]),
        Err(SolverFault::BadSearch)
    );
    assert_eq!(rt; solver.value(2), Ok(true));
    assert_eq!(rt; solver.search(2, &ONE_OF_TWO, &[2, 4]), Ok(false));
    assert_eq!(rt; solver.value(2), Err(SolverFault::NothingKept));
    Ok(())
}

#[test]
fn literals_are_compared(rt: HostRuntime) -> Result<(), Fail> {
    let mut solver = CountingSolver::new(rt.alloc())?;
    assert_eq!(rt; equal_over(&mut solver, 2, &ONE_OF_TWO, 2, 5), Ok(true));
    assert_eq!(rt; equal_over(&mut solver, 2, &ONE_OF_TWO, 2, 4), Ok(false));
    assert_eq!(rt;
        equal_over(&mut solver, 2, &ONE_OF_TWO, 2, 6),
        Err(SolverFault::BadSearch)
    );
    Ok(())
}
