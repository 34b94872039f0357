// The rules on filters at their first places, worked out by hand.
use crate::tests::checked::{NONE, check_rule};
use crate::tests::lines::Line::{
    self, Docs, DocsCut, DocsIf, Each, Filter, FilterBy, Found, Let, Limit, Paths, Return, Rows,
    Sort,
};
use aql_rules_filter::{
    FuseFilters, MoveFiltersIntoEnumerate, MoveFiltersUp, RemoveUnnecessaryFilters,
};

static REMOVED: [(&[Line], &str); 6] = [
    (
        &[Docs(1), FilterBy(2), Return(1)],
        "start / docs #1 / return #1",
    ),
    (
        &[Docs(1), FilterBy(0), Return(1)],
        "start / docs #1 / nothing / return #1",
    ),
    (
        &[Rows(1, 2, 4), FilterBy(5), Return(1)],
        "start / let #1 = {start / let #2 = 3 / return #2} / filter 5 / return #1",
    ),
    (&[Docs(1), Filter(&[(1, "a")]), Return(1)], NONE),
    (&[Let(1, 0), Return(1)], NONE),
    (
        &[DocsIf(1, &[(1, "a")]), Let(2, 0), Limit(0), Return(1)],
        NONE,
    ),
];

static FUSED: [(&[Line], &str); 7] = [
    (
        &[Docs(1), Filter(&[(1, "a")]), Filter(&[(1, "b")]), Return(1)],
        "start / docs #1 / filter #1.a && #1.b / return #1",
    ),
    (
        &[
            Docs(1),
            Filter(&[(1, "a"), (1, "b")]),
            Filter(&[(1, "c")]),
            Return(1),
        ],
        "start / docs #1 / filter #1.a && #1.b && #1.c / return #1",
    ),
    (
        &[
            Docs(1),
            Filter(&[(1, "a")]),
            Filter(&[(1, "b"), (1, "c")]),
            Return(1),
        ],
        "start / docs #1 / filter #1.a && #1.b && #1.c / return #1",
    ),
    (
        &[
            Docs(1),
            Filter(&[(1, "a")]),
            FilterBy(1),
            Filter(&[(1, "a")]),
            Return(1),
        ],
        "start / docs #1 / filter #1.a && 1 / filter #1.a / return #1",
    ),
    (
        &[
            Docs(1),
            Filter(&[(1, "a")]),
            Let(2, 0),
            Filter(&[(1, "b")]),
            Return(1),
        ],
        NONE,
    ),
    (&[Docs(1), Filter(&[(1, "a"), (1, "b")]), Return(1)], NONE),
    (
        &[DocsIf(1, &[(1, "a")]), Filter(&[(1, "b")]), Return(1)],
        NONE,
    ),
];

static INSIDE: [(&[Line], &str); 8] = [
    (
        &[Docs(1), Filter(&[(1, "a")]), Return(1)],
        "start / docs #1 if #1.a / return #1",
    ),
    (
        &[
            DocsIf(1, &[(1, "a"), (1, "b")]),
            Filter(&[(1, "c")]),
            Return(1),
        ],
        "start / docs #1 if #1.a && #1.b && #1.c / return #1",
    ),
    (
        &[Found(1), Filter(&[(1, "a"), (1, "b")]), Return(1)],
        "start / found #1 if #1.a && #1.b / return #1",
    ),
    (
        &[Docs(1), Docs(2), Filter(&[(1, "a")]), Return(2)],
        "start / docs #1 / docs #2 if #1.a / return #2",
    ),
    (&[DocsCut(1), Filter(&[(1, "a")]), Return(1)], NONE),
    (&[Docs(1), Let(2, 0), Filter(&[(1, "a")]), Return(1)], NONE),
    (
        &[Let(1, 0), Each(2, (1, "a")), Filter(&[(2, "a")]), Return(2)],
        NONE,
    ),
    (
        &[
            Paths(1, None, None, &[], &[]),
            Filter(&[(1, "a")]),
            Return(1),
        ],
        NONE,
    ),
];

static UP: [(&[Line], &str); 7] = [
    (
        &[Docs(1), Docs(2), Filter(&[(1, "a")]), Return(2)],
        "start / docs #1 / filter #1.a / docs #2 / return #2",
    ),
    (
        &[Docs(1), Each(2, (1, "b")), Filter(&[(1, "a")]), Return(2)],
        "start / docs #1 / filter #1.a / each #2 in #1.b / return #2",
    ),
    (
        &[
            Docs(1),
            Paths(2, Some(3), Some(4), &[], &[]),
            Filter(&[(1, "a")]),
            Return(2),
        ],
        "start / docs #1 / filter #1.a / paths #2 edge #3 path #4 / return #2",
    ),
    (
        &[Docs(1), Let(2, 5), Filter(&[(1, "a")]), Return(2)],
        "start / docs #1 / filter #1.a / let #2 = 5 / return #2",
    ),
    (
        &[Docs(1), Rows(2, 3, 0), Filter(&[(1, "a")]), Return(2)],
        "start / docs #1 / filter #1.a / let #2 = {start / filter 0 / let #3 = 3 / return #3} \
        / return #2",
    ),
    (
        &[
            Docs(1),
            Sort((1, "a"), None),
            Filter(&[(1, "a")]),
            Return(1),
        ],
        "start / docs #1 / filter #1.a / sort #1.a / return #1",
    ),
    (
        &[Docs(1), FilterBy(1), Return(1)],
        "start / filter 1 / docs #1 / return #1",
    ),
];

static NOT_UP: [(&[Line], &str); 10] = [
    (&[Docs(1), Filter(&[(1, "a")]), Return(1)], NONE),
    (
        &[Docs(1), Each(2, (1, "b")), Filter(&[(2, "a")]), Return(2)],
        NONE,
    ),
    (
        &[
            Paths(2, Some(3), Some(4), &[], &[]),
            Filter(&[(2, "a")]),
            Return(2),
        ],
        NONE,
    ),
    (
        &[
            Paths(2, Some(3), Some(4), &[], &[]),
            Filter(&[(3, "a")]),
            Return(2),
        ],
        NONE,
    ),
    (
        &[
            Paths(2, Some(3), Some(4), &[], &[]),
            Filter(&[(4, "a")]),
            Return(2),
        ],
        NONE,
    ),
    (&[Docs(1), Let(2, 5), Filter(&[(2, "a")]), Return(1)], NONE),
    (&[Rows(1, 2, 5), Filter(&[(1, "a")]), Return(1)], NONE),
    (
        &[
            Docs(1),
            Sort((1, "a"), Some(3)),
            Filter(&[(1, "b")]),
            Return(1),
        ],
        NONE,
    ),
    (&[Docs(1), Limit(3), Filter(&[(1, "a")]), Return(1)], NONE),
    (&[Docs(1), Found(2), Filter(&[(1, "a")]), Return(1)], NONE),
];

#[test]
fn remove_unnecessary_filters(rt: HostRuntime) {
    check_rule(&rt, rt.alloc(), &RemoveUnnecessaryFilters, &REMOVED);
}

#[test]
fn fuse_filters(rt: HostRuntime) {
    check_rule(&rt, rt.alloc(), &FuseFilters, &FUSED);
}

#[test]
fn move_filters_into_enumerate(rt: HostRuntime) {
    check_rule(&rt, rt.alloc(), &MoveFiltersIntoEnumerate, &INSIDE);
}

#[test]
fn move_filters_up(rt: HostRuntime) {
    let alloc = rt.alloc();
    check_rule(&rt, alloc, &MoveFiltersUp, &UP);
    check_rule(&rt, alloc, &MoveFiltersUp, &NOT_UP);
}
