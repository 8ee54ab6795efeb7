//! A project of eighteen jobs, most of them in a short and a cheap mode, with two resources of either kind.

use crate::drafting::{DraftRow, WorkedProject};

const EIGHTEEN: &[DraftRow] = &[
    (&[(0, &[0, 0], &[0, 0])], &[2, 3, 4]),
    (&[(3, &[4, 2], &[5, 2]), (5, &[2, 2], &[2, 1])], &[5, 6]),
    (&[(4, &[3, 3], &[4, 3]), (6, &[2, 2], &[2, 1])], &[7, 8]),
    (&[(2, &[2, 4], &[3, 3]), (4, &[1, 3], &[1, 1])], &[9, 10]),
    (&[(4, &[4, 0], &[6, 1]), (7, &[2, 0], &[3, 0])], &[11]),
    (&[(2, &[3, 2], &[2, 4]), (4, &[2, 1], &[1, 2])], &[11, 12]),
    (&[(3, &[0, 4], &[4, 2]), (5, &[0, 2], &[2, 1])], &[12]),
    (&[(5, &[2, 3], &[5, 5]), (8, &[1, 2], &[2, 2])], &[13]),
    (&[(3, &[3, 3], &[3, 2]), (5, &[2, 2], &[1, 1])], &[13, 14]),
    (&[(4, &[4, 0], &[4, 4]), (7, &[2, 0], &[2, 2])], &[14]),
    (&[(5, &[5, 2], &[7, 3]), (9, &[3, 1], &[3, 1])], &[15]),
    (&[(3, &[2, 3], &[2, 2]), (5, &[1, 2], &[1, 1])], &[15, 16]),
    (&[(4, &[3, 2], &[4, 3]), (6, &[2, 1], &[2, 1])], &[16]),
    (&[(2, &[2, 2], &[3, 1]), (4, &[1, 1], &[1, 0])], &[17]),
    (&[(6, &[6, 1], &[6, 5]), (9, &[4, 1], &[3, 2])], &[18]),
    (&[(3, &[3, 4], &[2, 3]), (5, &[2, 3], &[1, 1])], &[18]),
    (&[(4, &[2, 3], &[3, 2]), (6, &[1, 2], &[1, 1])], &[18]),
    (&[(0, &[0, 0], &[0, 0])], &[]),
];

/// All short modes need 63 of the first budget and 45 of the second: the least duration is 18.
pub const EIGHTEEN_JOBS: WorkedProject = WorkedProject {
    jobs: EIGHTEEN,
    capacities: &[14, 10],
    budgets: &[70, 45],
    calendar: &[],
};

/// The same jobs with less of the second budget, which the short modes exceed.
pub const EIGHTEEN_JOBS_TIGHT: WorkedProject = WorkedProject {
    jobs: EIGHTEEN,
    capacities: &[14, 10],
    budgets: &[70, 30],
    calendar: &[],
};
