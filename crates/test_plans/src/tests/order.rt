// The rules on sorts and on what COLLECT sets, at their first places, worked out by hand.
use crate::tests::checked::{NONE, check_rule};
use crate::tests::lines::Line::{
    self, Collect, Docs, Each, EachOf, Filter, Found, Let, Limit, LimitAfter, Paths, Return, Rows,
    Sort, SortBy,
};
use aql_rules_order::{InlineSubqueries, RemoveCollectVariables, RemoveRedundantSorts, SortLimit};

static INLINED: [(&[Line], &str); 3] = [
    (
        &[Rows(1, 2, 4), EachOf(3, 1), Return(3)],
        "start / filter 4 / let #2 = 3 / let #3 = #2 / return #3",
    ),
    (
        &[Let(5, 1), Rows(1, 2, 4), EachOf(3, 1), Return(3)],
        "start / let #5 = 1 / filter 4 / let #2 = 3 / let #3 = #2 / return #3",
    ),
    (
        &[Rows(5, 6, 1), Rows(1, 2, 4), EachOf(3, 1), Return(5)],
        "start / let #5 = {start / filter 1 / let #6 = 3 / return #6} / filter 4 / let #2 = 3 \
        / let #3 = #2 / return #5",
    ),
];

static NOT_INLINED: [(&[Line], &str); 7] = [
    (&[Docs(5), Rows(1, 2, 4), EachOf(3, 1), Return(3)], NONE),
    (
        &[
            Let(5, 1),
            Filter(&[(5, "a")]),
            Rows(1, 2, 4),
            EachOf(3, 1),
            Return(3),
        ],
        NONE,
    ),
    (&[Rows(1, 2, 4), EachOf(3, 1), Return(1)], NONE),
    (
        &[Rows(1, 2, 4), EachOf(3, 1), Sort((1, "a"), None), Return(3)],
        NONE,
    ),
    (&[Let(5, 1), Rows(1, 2, 4), EachOf(3, 5), Return(3)], NONE),
    (&[Rows(1, 2, 4), Let(5, 1), EachOf(3, 1), Return(3)], NONE),
    (&[Rows(1, 2, 4), Each(3, (1, "a")), Return(3)], NONE),
];

static UNSORTED: [(&[Line], &str); 10] = [
    (
        &[Docs(1), SortBy(5, None), Return(1)],
        "start / docs #1 / return #1",
    ),
    (
        &[Docs(1), SortBy(5, None), SortBy(6, None), Return(1)],
        "start / docs #1 / sort 6 / return #1",
    ),
    (
        &[Docs(1), Sort((1, "a"), None), SortBy(2, None), Return(1)],
        "start / docs #1 / sort #1.a / return #1",
    ),
    (
        &[
            Docs(1),
            Sort((1, "a"), None),
            Sort((1, "b"), None),
            Return(1),
        ],
        "start / docs #1 / sort #1.b / return #1",
    ),
    (
        &[
            Docs(1),
            Sort((1, "a"), None),
            Sort((1, "b"), Some(3)),
            Return(1),
        ],
        "start / docs #1 / sort #1.b first 3 / return #1",
    ),
    (
        &[Docs(1), Sort((1, "a"), None), SortBy(2, Some(3)), Return(1)],
        "start / docs #1 / sort 2 first 3 / return #1",
    ),
    (
        &[
            Docs(1),
            Sort((1, "a"), None),
            Collect(2, (1, "b"), &[], None),
            Return(2),
        ],
        "start / docs #1 / collect #2 = #1.b / return #2",
    ),
    (
        &[Docs(1), Sort((1, "a"), None), Docs(2), Return(2)],
        "start / docs #1 / docs #2 / return #2",
    ),
    (
        &[
            Docs(1),
            Sort((1, "a"), None),
            Paths(2, None, None, &[], &[]),
            Return(2),
        ],
        "start / docs #1 / paths #2 / return #2",
    ),
    (
        &[
            Docs(1),
            Sort((1, "a"), None),
            Let(2, 5),
            Rows(3, 4, 1),
            Filter(&[(1, "b")]),
            Each(5, (1, "c")),
            Sort((5, "a"), None),
            Return(5),
        ],
        "start / docs #1 / let #2 = 5 / let #3 = {start / filter 1 / let #4 = 3 / return #4} \
        / filter #1.b / each #5 in #1.c / sort #5.a / return #5",
    ),
];

static STILL_SORTED: [(&[Line], &str); 9] = [
    (&[Docs(1), Sort((1, "a"), None), Return(1)], NONE),
    (&[Docs(1), SortBy(5, Some(3)), Return(1)], NONE),
    (&[Docs(1), Sort((1, "a"), None), Let(2, 5), Return(1)], NONE),
    (
        &[
            Docs(1),
            Sort((1, "a"), None),
            Filter(&[(1, "b")]),
            Each(2, (1, "c")),
            Return(2),
        ],
        NONE,
    ),
    (
        &[
            Docs(1),
            Sort((1, "a"), Some(3)),
            Sort((1, "b"), None),
            Return(1),
        ],
        NONE,
    ),
    (
        &[
            Docs(1),
            Sort((1, "a"), None),
            Limit(3),
            Sort((1, "b"), None),
            Return(1),
        ],
        NONE,
    ),
    (
        &[
            Docs(1),
            Sort((1, "a"), None),
            Limit(3),
            Collect(2, (1, "b"), &[], None),
            Return(2),
        ],
        NONE,
    ),
    (&[Docs(1), Sort((1, "a"), None), Found(2), Return(2)], NONE),
    (&[Docs(1), Docs(2), Return(2)], NONE),
];

static DROPPED: [(&[Line], &str); 5] = [
    (
        &[
            Docs(1),
            Collect(2, (1, "a"), &[], Some((3, (1, "b")))),
            Return(2),
        ],
        "start / docs #1 / collect #2 = #1.a / return #2",
    ),
    (
        &[
            Docs(1),
            Collect(2, (1, "a"), &[(3, "SUM", (1, "b"))], None),
            Return(2),
        ],
        "start / docs #1 / collect #2 = #1.a / return #2",
    ),
    (
        &[
            Docs(1),
            Collect(
                2,
                (1, "a"),
                &[
                    (3, "SUM", (1, "b")),
                    (4, "MAX", (1, "c")),
                    (5, "MIN", (1, "c")),
                ],
                Some((6, (1, "d"))),
            ),
            Return(4),
        ],
        "start / docs #1 / collect #2 = #1.a #4 = MAX #1.c / return #4",
    ),
    (
        &[
            Docs(1),
            Collect(2, (1, "a"), &[(3, "SUM", (1, "b"))], Some((4, (1, "b")))),
            Return(4),
        ],
        "start / docs #1 / collect #2 = #1.a into #4 = #1.b / return #4",
    ),
    (
        &[
            Docs(1),
            Collect(
                2,
                (1, "a"),
                &[(3, "SUM", (1, "b")), (4, "MAX", (1, "b"))],
                None,
            ),
            Sort((4, "a"), None),
            Return(2),
        ],
        "start / docs #1 / collect #2 = #1.a #4 = MAX #1.b / sort #4.a / return #2",
    ),
];

static ALL_USED: [(&[Line], &str); 6] = [
    (&[Docs(1), Collect(2, (1, "a"), &[], None), Return(2)], NONE),
    (
        &[
            Docs(1),
            Let(3, 1),
            Collect(2, (1, "a"), &[], None),
            Let(4, 1),
            Return(4),
        ],
        NONE,
    ),
    (
        &[
            Docs(1),
            Collect(2, (1, "a"), &[(3, "SUM", (1, "b"))], None),
            Return(3),
        ],
        NONE,
    ),
    (
        &[
            Docs(1),
            Collect(2, (1, "a"), &[], Some((3, (1, "b")))),
            Return(3),
        ],
        NONE,
    ),
    (
        &[
            Docs(1),
            Collect(2, (1, "a"), &[(3, "SUM", (1, "b"))], None),
            Sort((3, "a"), None),
            Return(2),
        ],
        NONE,
    ),
    (
        &[
            Docs(1),
            Collect(2, (1, "a"), &[(3, "SUM", (1, "b"))], Some((4, (1, "c")))),
            Filter(&[(4, "a")]),
            Return(3),
        ],
        NONE,
    ),
];

static LIMITED: [(&[Line], &str); 6] = [
    (
        &[Docs(1), Sort((1, "a"), None), Limit(3), Return(1)],
        "start / docs #1 / sort #1.a first 3 / limit 3 / return #1",
    ),
    (
        &[Docs(1), Sort((1, "a"), None), LimitAfter(2, 3), Return(1)],
        "start / docs #1 / sort #1.a first 5 / limit 2, 3 / return #1",
    ),
    (
        &[
            Docs(1),
            Sort((1, "a"), None),
            Let(2, 5),
            Rows(3, 4, 1),
            Limit(3),
            Return(3),
        ],
        "start / docs #1 / sort #1.a first 3 / let #2 = 5 \
        / let #3 = {start / filter 1 / let #4 = 3 / return #4} / limit 3 / return #3",
    ),
    (
        &[Docs(1), Sort((1, "a"), None), Limit(0), Return(1)],
        "start / docs #1 / sort #1.a first 0 / limit 0 / return #1",
    ),
    (
        &[
            Docs(1),
            Sort((1, "a"), None),
            LimitAfter(9223372036854775808, 9223372036854775807),
            Return(1),
        ],
        "start / docs #1 / sort #1.a first 18446744073709551615 \
        / limit 9223372036854775808, 9223372036854775807 / return #1",
    ),
    (
        &[Docs(1), Sort((1, "a"), None), Limit(3), Limit(2), Return(1)],
        "start / docs #1 / sort #1.a first 3 / limit 3 / limit 2 / return #1",
    ),
];

static NOT_LIMITED: [(&[Line], &str); 8] = [
    (
        &[Docs(1), Sort((1, "a"), Some(9)), Limit(3), Return(1)],
        NONE,
    ),
    (&[Docs(1), Sort((1, "a"), None), Return(1)], NONE),
    (&[Docs(1), Limit(3), Return(1)], NONE),
    (
        &[
            Docs(1),
            Sort((1, "a"), None),
            Filter(&[(1, "b")]),
            Limit(3),
            Return(1),
        ],
        NONE,
    ),
    (
        &[
            Docs(1),
            Sort((1, "a"), None),
            Each(2, (1, "b")),
            Limit(3),
            Return(1),
        ],
        NONE,
    ),
    (
        &[
            Docs(1),
            Sort((1, "a"), None),
            Collect(2, (1, "b"), &[], None),
            Limit(3),
            Return(2),
        ],
        NONE,
    ),
    (
        &[Docs(1), Sort((1, "a"), None), Docs(2), Limit(3), Return(1)],
        NONE,
    ),
    (&[Docs(1), Limit(3), Sort((1, "a"), None), Return(1)], NONE),
];

#[test]
fn inline_subqueries(rt: HostRuntime) {
    let alloc = rt.alloc();
    check_rule(&rt, alloc, &InlineSubqueries, &INLINED);
    check_rule(&rt, alloc, &InlineSubqueries, &NOT_INLINED);
}

#[test]
fn remove_redundant_sorts(rt: HostRuntime) {
    let alloc = rt.alloc();
    check_rule(&rt, alloc, &RemoveRedundantSorts, &UNSORTED);
    check_rule(&rt, alloc, &RemoveRedundantSorts, &STILL_SORTED);
}

#[test]
fn remove_collect_variables(rt: HostRuntime) {
    let alloc = rt.alloc();
    check_rule(&rt, alloc, &RemoveCollectVariables, &DROPPED);
    check_rule(&rt, alloc, &RemoveCollectVariables, &ALL_USED);
}

#[test]
fn sort_limit(rt: HostRuntime) {
    let alloc = rt.alloc();
    check_rule(&rt, alloc, &SortLimit, &LIMITED);
    check_rule(&rt, alloc, &SortLimit, &NOT_LIMITED);
}
