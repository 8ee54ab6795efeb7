//! Made projects that are solved.

use crate::runs::{Outside, check, told};
use scheduler::Status;

#[test]
fn the_least_made_project_is_solved(rt: HostRuntime) {
    let want = "jobs 3\nmodes 1\nverdict optimal\nduration 5\nlower 5\n";
    check(
        &rt,
        "trial 42 3",
        &Outside::of(b"", b""),
        (Status::Done, want),
    );
}

/// Words of trials, others that come to the same, and the status of either.
const SAME: &[(&str, &str, Status)] = &[
    ("trial 7 6 workers=1", "trial 7 6 workers=1", Status::Done),
    ("trial 7 6 workers=1", "trial 7 6 workers=4", Status::Done),
    ("trial 7 6 workers=4", "trial 7 6 workers=4", Status::Done),
    (
        "trial 5 40 nodes=200",
        "trial 5 40 nodes=200",
        Status::Limit,
    ),
];

#[test]
fn a_trial_is_the_same_again(rt: HostRuntime) {
    let nothing = Outside::of(b"", b"");
    for (words, others, want) in SAME {
        let (status, first) = told(&rt, words, &nothing);
        let (other, again) = told(&rt, others, &nothing);
        assert_eq!(&rt; (status, other), (*want, *want));
        assert_eq!(&rt; again.as_slice(), first.as_slice());
    }
}
