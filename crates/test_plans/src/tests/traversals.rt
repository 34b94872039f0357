// optimize-traversals at its first places, worked out by hand.
use crate::tests::checked::{NONE, check_rule};
use crate::tests::lines::Line::{self, Docs, Filter, Let, Paths, Return};
use aql_rules_filter::OptimizeTraversals;

static OPTIMIZED: [(&[Line], &str); 6] = [
    (
        &[Paths(1, Some(2), Some(3), &[], &[]), Return(1)],
        "start / paths #1 path #3 / return #1",
    ),
    (
        &[Paths(1, None, Some(3), &[], &[]), Return(1)],
        "start / paths #1 / return #1",
    ),
    (
        &[Paths(1, Some(2), Some(3), &[(2, "a")], &[]), Return(1)],
        "start / paths #1 edge #2 prune #2.a / return #1",
    ),
    (
        &[
            Paths(1, None, None, &[], &[]),
            Filter(&[(1, "a"), (1, "b")]),
            Return(1),
        ],
        "start / paths #1 if #1.a && #1.b / return #1",
    ),
    (
        &[
            Paths(1, Some(2), None, &[], &[]),
            Filter(&[(2, "a")]),
            Return(1),
        ],
        "start / paths #1 edge #2 if #2.a / return #1",
    ),
    (
        &[
            Paths(1, None, Some(3), &[(1, "a")], &[]),
            Filter(&[(1, "b")]),
            Return(3),
        ],
        "start / paths #1 path #3 prune #1.a if #1.b / return #3",
    ),
];

static NOT_OPTIMIZED: [(&[Line], &str); 9] = [
    (&[Paths(1, None, None, &[], &[]), Return(1)], NONE),
    (&[Paths(1, Some(2), None, &[], &[]), Return(2)], NONE),
    (&[Paths(1, None, Some(3), &[], &[]), Return(3)], NONE),
    (
        &[Paths(1, Some(2), None, &[], &[(2, "a")]), Return(1)],
        NONE,
    ),
    (
        &[Paths(1, None, Some(3), &[(3, "a")], &[]), Return(1)],
        NONE,
    ),
    (
        &[
            Paths(1, None, Some(3), &[], &[]),
            Filter(&[(1, "a"), (3, "a")]),
            Return(1),
        ],
        NONE,
    ),
    (
        &[
            Paths(1, None, None, &[], &[(1, "a")]),
            Filter(&[(1, "b")]),
            Return(1),
        ],
        NONE,
    ),
    (
        &[
            Paths(1, None, None, &[], &[]),
            Let(2, 0),
            Filter(&[(1, "a")]),
            Return(1),
        ],
        NONE,
    ),
    (&[Docs(1), Filter(&[(1, "a")]), Return(1)], NONE),
];

#[test]
fn optimize_traversals(rt: HostRuntime) {
    let alloc = rt.alloc();
    check_rule(&rt, alloc, &OptimizeTraversals, &OPTIMIZED);
    check_rule(&rt, alloc, &OptimizeTraversals, &NOT_OPTIMIZED);
}
