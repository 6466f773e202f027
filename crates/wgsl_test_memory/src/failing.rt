//! Calls, with one allocation that fails.

use crate::answers::Answers;
use std::process::Abort;

/// Which allocation of a test fails.
pub const FAILING: usize = 1_000;

/// Checks calls after so many allocations, so that it is one of theirs that fails.
pub fn check_after<R: AllocGlobal + Abort, F: Fn(&mut Answers) + Drop>(
    rt: &R,
    calls: F,
    before: usize,
) {
    for _ in 0..before {
        assert!(rt;
            Box::new(rt.alloc(), 0u8).is_ok(),
            "an allocation before the calls fails"
        );
    }
    check(rt, calls);
}

/// Checks calls that make at most so many allocations, so that it is none of theirs that fails.
pub fn check_count<R: AllocGlobal + Abort, F: Fn(&mut Answers) + Drop>(
    rt: &R,
    calls: F,
    most: usize,
) {
    let left = check(rt, calls);
    assert!(rt;
        left.is_some(),
        "no allocation fails, or the calls make {FAILING} or more"
    );
    let made = FAILING.saturating_sub(left.unwrap_or(0));
    assert!(rt; made <= most, "the calls make {made} allocations");
}

/// Makes calls twice, and returns how many allocations there were after the first time up to the
/// one that fails, unless it was one of the calls'.
fn check<R: AllocGlobal + Abort, F: Fn(&mut Answers) + Drop>(rt: &R, calls: F) -> Option<usize> {
    let mut answers = Answers::new(rt.alloc());
    calls(&mut answers);
    let left = (1..=FAILING).find(|_| Box::new(rt.alloc(), 0u8).is_err());
    let mut undisturbed = Answers::new(rt.alloc());
    calls(&mut undisturbed);
    if let Some(other) = answers.first_other(&undisturbed) {
        assert!(rt;
            false,
            "{} of {:?} returns something else",
            other.call, other.text
        );
    }
    left
}
