//! Projects of up to six jobs. Most begin and end with a job that takes no time.

use crate::drafting::{DraftRow, WorkedProject};
use project_net::CalRow;

/// A job in one mode that takes no time and asks for nothing of one renewable resource.
const FIRST_OF_TWO: DraftRow = (&[(0, &[0], &[])], &[2, 3]);

const LAST: DraftRow = (&[(0, &[0], &[])], &[]);

/// The jobs of `TWO_IN_TURN`.
const PAIR: &[DraftRow] = &[
    FIRST_OF_TWO,
    (&[(3, &[2], &[])], &[4]),
    (&[(2, &[2], &[])], &[4]),
    LAST,
];

/// Jobs 2 and 3, of 3 and 2 periods, together ask for more than there is: the least duration is 5.
pub const TWO_IN_TURN: WorkedProject = WorkedProject {
    jobs: PAIR,
    capacities: &[3],
    budgets: &[],
    calendar: &[],
};

/// The same jobs where there is enough for both: the least duration is 3.
pub const ALL_AT_ONCE: WorkedProject = WorkedProject {
    jobs: PAIR,
    capacities: &[4],
    budgets: &[],
    calendar: &[],
};

/// The same jobs, where there is one unit in periods 0 and 1: the least duration is 7.
pub const AFTER_A_BREAK: WorkedProject = WorkedProject {
    jobs: PAIR,
    capacities: &[3],
    budgets: &[],
    calendar: &[CalRow {
        resource: 1,
        begin: 0,
        until: 2,
        capacity: 1,
    }],
};

/// Job 2 has a longer mode that asks for as much: the least duration is 5.
pub const LONGER_MODE: WorkedProject = WorkedProject {
    jobs: &[
        FIRST_OF_TWO,
        (&[(3, &[2], &[]), (4, &[2], &[])], &[4]),
        (&[(2, &[2], &[])], &[4]),
        LAST,
    ],
    capacities: &[3],
    budgets: &[],
    calendar: &[],
};

/// Job 2 asks for more than there ever is: no schedule is feasible.
pub const ASKS_TOO_MUCH: WorkedProject = WorkedProject {
    jobs: &[
        FIRST_OF_TWO,
        (&[(3, &[5], &[])], &[4]),
        (&[(2, &[2], &[])], &[4]),
        LAST,
    ],
    capacities: &[3],
    budgets: &[],
    calendar: &[],
};

/// One job of three periods, and none of its resource in period 2: it starts at 3.
pub const LATE_BREAK: WorkedProject = WorkedProject {
    jobs: &[(&[(3, &[1], &[])], &[])],
    capacities: &[1],
    budgets: &[],
    calendar: &[CalRow {
        resource: 1,
        begin: 2,
        until: 3,
        capacity: 0,
    }],
};

/// One job alone, as long and as large as a job can be.
pub const ONE_LONG_JOB: WorkedProject = WorkedProject {
    jobs: &[(&[(10_000, &[1_000_000], &[])], &[])],
    capacities: &[1_000_000],
    budgets: &[],
    calendar: &[],
};

/// Jobs 2 and 3 have a short mode and a cheap one, and the budget doesn't pay for two short ones: the least duration is 4.
pub const SHORT_OR_CHEAP: WorkedProject = WorkedProject {
    jobs: &[
        (&[(0, &[0], &[0])], &[2, 3]),
        (&[(2, &[1], &[3]), (4, &[1], &[1])], &[4]),
        (&[(2, &[1], &[3]), (4, &[1], &[1])], &[4]),
        (&[(0, &[0], &[0])], &[]),
    ],
    capacities: &[2],
    budgets: &[4],
    calendar: &[],
};

/// Three jobs of two periods that ask for all there is: the work that they take is the least duration, 6.
pub const THREE_IN_TURN: WorkedProject = WorkedProject {
    jobs: &[
        (&[(0, &[0], &[])], &[2, 3, 4]),
        (&[(2, &[1], &[])], &[5]),
        (&[(2, &[1], &[])], &[5]),
        (&[(2, &[1], &[])], &[5]),
        LAST,
    ],
    capacities: &[1],
    budgets: &[],
    calendar: &[],
};

/// Jobs 2 and 3 are alike, so a front with both in one order makes the other order needless: the least duration is 6.
pub const TWINS: WorkedProject = WorkedProject {
    jobs: &[
        FIRST_OF_TWO,
        (&[(1, &[1], &[])], &[4, 5]),
        (&[(1, &[1], &[])], &[4, 5]),
        (&[(3, &[2], &[])], &[6]),
        (&[(2, &[2], &[])], &[6]),
        LAST,
    ],
    capacities: &[3],
    budgets: &[],
    calendar: &[],
};

/// The same, but job 2 has a mode that needs more and one that asks for more: the least duration is 6.
pub const NEEDS_DIFFER: WorkedProject = WorkedProject {
    jobs: &[
        (&[(0, &[0], &[0])], &[2, 3]),
        (&[(1, &[1], &[3]), (1, &[2], &[1])], &[4, 5]),
        (&[(1, &[1], &[0])], &[4, 5]),
        (&[(3, &[2], &[0])], &[6]),
        (&[(2, &[2], &[0])], &[6]),
        (&[(0, &[0], &[0])], &[]),
    ],
    capacities: &[3],
    budgets: &[10],
    calendar: &[],
};

/// Two jobs without a renewable resource, whose modes need one of two budgets each: the least duration is 1.
pub const BUDGETS_ALONE: WorkedProject = WorkedProject {
    jobs: &[
        (&[(1, &[], &[3, 0]), (1, &[], &[0, 3])], &[]),
        (&[(1, &[], &[3, 0]), (1, &[], &[0, 3])], &[]),
    ],
    capacities: &[],
    budgets: &[3, 3],
    calendar: &[],
};

/// Jobs 3, 2 and 1, in this order, take no time and come before job 4, and job 5 stands alone: the least duration is 5.
pub const NO_LENGTH: WorkedProject = WorkedProject {
    jobs: &[
        (&[(0, &[0], &[])], &[4]),
        (&[(0, &[0], &[])], &[1]),
        (&[(0, &[0], &[])], &[2]),
        (&[(3, &[2], &[])], &[]),
        (&[(2, &[2], &[])], &[]),
    ],
    capacities: &[3],
    budgets: &[],
    calendar: &[],
};
