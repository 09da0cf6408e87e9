//! What tests find is what they want. These are functions so that the prover sees a call in each test, and what a failure prints
//! in one place.
use std::fmt::Debug;
use std::process::Abort;

/// It holds.
pub fn check(rt: &impl Abort, holds: bool) {
    assert!(rt; holds);
}

/// What was found is what is wanted.
pub fn check_same<T: PartialEq + Debug + Drop>(rt: &impl Abort, found: T, wanted: T) {
    assert_eq!(rt; found, wanted);
}

/// So it is in the case of a number.
pub fn check_case<T: PartialEq + Debug + Drop>(rt: &impl Abort, case: usize, found: T, wanted: T) {
    assert_eq!(rt; found, wanted, "case {case}");
}
