// The rules on calculations at their first places, worked out by hand.
use crate::tests::checked::{NONE, check_rule};
use crate::tests::lines::Line::{
    self, Copy, Docs, DocsCut, DocsIf, Each, Filter, Found, Let, Limit, Paths, Return, ReturnPart,
    Rows, Sort,
};
use aql_rules_calc::{
    MoveCalculationsUp, ReduceExtractionToProjection, RemoveRedundantCalculations,
    RemoveUnnecessaryCalculations,
};

static UP: [(&[Line], &str); 10] = [
    (
        &[Docs(1), Let(2, 5), Return(2)],
        "start / let #2 = 5 / docs #1 / return #2",
    ),
    (
        &[Let(1, 0), Each(2, (1, "a")), Copy(3, (1, "b")), Return(3)],
        "start / let #1 = 0 / let #3 = #1.b / each #2 in #1.a / return #3",
    ),
    (
        &[
            Docs(1),
            Paths(2, Some(3), None, &[], &[]),
            Copy(4, (1, "a")),
            Return(4),
        ],
        "start / docs #1 / let #4 = #1.a / paths #2 edge #3 / return #4",
    ),
    (
        &[
            Docs(1),
            Sort((1, "a"), Some(3)),
            Copy(2, (1, "b")),
            Return(2),
        ],
        "start / docs #1 / let #2 = #1.b / sort #1.a first 3 / return #2",
    ),
    (
        &[Docs(1), Rows(2, 3, 4), Return(2)],
        "start / let #2 = {start / filter 4 / let #3 = 3 / return #3} / docs #1 / return #2",
    ),
    (&[Docs(1), Copy(2, (1, "a")), Return(2)], NONE),
    (
        &[Docs(1), Sort((1, "a"), None), Rows(2, 3, 4), Return(2)],
        NONE,
    ),
    (&[Docs(1), Filter(&[(1, "a")]), Let(2, 5), Return(2)], NONE),
    (&[Docs(1), Limit(2), Let(2, 5), Return(2)], NONE),
    (&[Let(1, 4), Let(2, 5), Return(2)], NONE),
];

static REDUNDANT: [(&[Line], &str); 7] = [
    (
        &[Docs(1), Copy(2, (1, "a")), Copy(3, (1, "a")), Return(3)],
        "start / docs #1 / let #2 = #1.a / return #2",
    ),
    (
        &[
            Docs(1),
            Copy(2, (1, "a")),
            Filter(&[(2, "c")]),
            Copy(3, (1, "a")),
            ReturnPart((3, "c")),
        ],
        "start / docs #1 / let #2 = #1.a / filter #2.c / return #2.c",
    ),
    (
        &[
            Let(1, 3),
            Docs(2),
            Let(3, 3),
            Filter(&[(3, "a")]),
            Return(3),
        ],
        "start / let #1 = 3 / docs #2 / filter #1.a / return #1",
    ),
    (
        &[Let(1, 3), Let(2, 3), Let(3, 3), Return(3)],
        "start / let #1 = 3 / let #3 = 3 / return #3",
    ),
    (
        &[Docs(1), Copy(2, (1, "a")), Copy(3, (1, "b")), Return(3)],
        NONE,
    ),
    (&[Let(1, 3), Rows(2, 3, 4), Return(2)], NONE),
    (&[Docs(1), Copy(2, (1, "a")), Return(2)], NONE),
];

static UNNECESSARY: [(&[Line], &str); 6] = [
    (
        &[Docs(1), Let(2, 5), Return(1)],
        "start / docs #1 / return #1",
    ),
    (
        &[Docs(1), Rows(2, 3, 4), Return(1)],
        "start / docs #1 / return #1",
    ),
    (
        &[Docs(1), Copy(2, (1, "a")), Copy(3, (2, "b")), Return(1)],
        "start / docs #1 / let #2 = #1.a / return #1",
    ),
    (&[Docs(1), Let(2, 5), Return(2)], NONE),
    (
        &[Docs(1), Rows(2, 3, 4), Filter(&[(2, "a")]), Return(1)],
        NONE,
    ),
    (&[Docs(1), Let(2, 5), Sort((2, "a"), None), Return(1)], NONE),
];

static CUT: [(&[Line], &str); 9] = [
    (
        &[Docs(1), ReturnPart((1, "a"))],
        "start / docs #1 cut a / return #1.a",
    ),
    (
        &[
            Docs(1),
            Filter(&[(1, "b")]),
            Sort((1, "a"), None),
            ReturnPart((1, "b")),
        ],
        "start / docs #1 cut a b / filter #1.b / sort #1.a / return #1.b",
    ),
    (
        &[DocsIf(1, &[(1, "c")]), ReturnPart((1, "a"))],
        "start / docs #1 if #1.c cut a / return #1.a",
    ),
    (
        &[Found(1), ReturnPart((1, "a"))],
        "start / found #1 cut a / return #1.a",
    ),
    (
        &[Docs(1), Docs(2), ReturnPart((2, "a"))],
        "start / docs #1 cut / docs #2 / return #2.a",
    ),
    (
        &[
            Docs(1),
            Filter(&[(1, "e"), (1, "d"), (1, "c"), (1, "b")]),
            ReturnPart((1, "a")),
        ],
        "start / docs #1 cut a b c d e / filter #1.e && #1.d && #1.c && #1.b / return #1.a",
    ),
    (
        &[
            Docs(1),
            Filter(&[(1, "e"), (1, "d"), (1, "c"), (1, "b"), (1, "f")]),
            ReturnPart((1, "a")),
        ],
        NONE,
    ),
    (&[Docs(1), Return(1)], NONE),
    (&[DocsCut(1), ReturnPart((1, "a"))], NONE),
];

#[test]
fn move_calculations_up(rt: HostRuntime) {
    check_rule(&rt, rt.alloc(), &MoveCalculationsUp, &UP);
}

#[test]
fn remove_redundant_calculations(rt: HostRuntime) {
    check_rule(&rt, rt.alloc(), &RemoveRedundantCalculations, &REDUNDANT);
}

#[test]
fn remove_unnecessary_calculations(rt: HostRuntime) {
    check_rule(
        &rt,
        rt.alloc(),
        &RemoveUnnecessaryCalculations,
        &UNNECESSARY,
    );
}

#[test]
fn reduce_extraction_to_projection(rt: HostRuntime) {
    check_rule(&rt, rt.alloc(), &ReduceExtractionToProjection, &CUT);
}
