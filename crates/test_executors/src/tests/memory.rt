// Memory that runs out at any place: the run of an executor ends then with want of memory, and else
// with the right rows.

use crate::tests::rows::{expect, is_right};
use crate::tests::{collects, indexes, leaves, lists, scans, sorts, streams, subqueries};

#[test]
fn of_start_row(rt: HostRuntime) {
    let alloc = rt.alloc();
    let start = leaves::start(alloc, 0, 2);
    expect(&rt, is_right(alloc, start, "[8]"), "the start row", 2);
}

#[test]
fn of_no_results(rt: HostRuntime) {
    let alloc = rt.alloc();
    let nothing = leaves::nothing(alloc, 0, 2);
    expect(&rt, is_right(alloc, nothing, "[]"), "no row", 2);
}

#[test]
fn of_let(rt: HostRuntime) {
    let alloc = rt.alloc();
    let set = streams::set(alloc, 2);
    expect(&rt, is_right(alloc, set, "[0,3,0,5,7,0]"), "LET", 2);
}

#[test]
fn of_filter(rt: HostRuntime) {
    let alloc = rt.alloc();
    let kept = streams::kept(alloc, 2);
    expect(&rt, is_right(alloc, kept, "[3,5,7]"), "FILTER", 2);
}

#[test]
fn of_limit(rt: HostRuntime) {
    let alloc = rt.alloc();
    let first = streams::first(alloc, 2);
    expect(&rt, is_right(alloc, first, "[3,0]"), "LIMIT", 2);
}

#[test]
fn of_return(rt: HostRuntime) {
    let alloc = rt.alloc();
    let results = streams::results(alloc, 2);
    expect(&rt, is_right(alloc, results, "[0,3,0,5,7,0]"), "RETURN", 2);
}

#[test]
fn of_return_distinct(rt: HostRuntime) {
    let alloc = rt.alloc();
    let distinct = streams::first_results(alloc, 2);
    let is_given = is_right(alloc, distinct, "[0,3,5,7]");
    expect(&rt, is_given, "RETURN DISTINCT", 2);
}

#[test]
fn of_array(rt: HostRuntime) {
    let alloc = rt.alloc();
    let elements = lists::ran(alloc, &[4, 5], 1, 2, true);
    let is_given = is_right(alloc, elements, "[9,5,9]");
    expect(&rt, is_given, "FOR over an array", 2);
}

#[test]
fn of_collection(rt: HostRuntime) {
    let alloc = rt.alloc();
    let case = &scans::FILTERED_AND_CUT[1];
    let read = match scans::gives(alloc, true, true, case, 2, true) {
        Ok((ran, _)) => Ok(ran),
        Err(e) => Err(e),
    };
    expect(
        &rt,
        is_right(alloc, read, case.3),
        "FOR over a collection",
        2,
    );
}

#[test]
fn of_index(rt: HostRuntime) {
    let alloc = rt.alloc();
    let case = &indexes::SKIPPED[2];
    let found = match indexes::gives(alloc, false, case, 2, true) {
        Ok((ran, _)) => Ok(ran),
        Err(e) => Err(e),
    };
    expect(&rt, is_right(alloc, found, case.4), "an index", 2);
}

#[test]
fn of_sort(rt: HostRuntime) {
    let alloc = rt.alloc();
    let sorted = sorts::ran(alloc, &sorts::LIMITED, 2, false);
    expect(&rt, is_right(alloc, sorted, "[1,2]"), "SORT", 2);
}

#[test]
fn of_subquery(rt: HostRuntime) {
    let alloc = rt.alloc();
    let arrays = subqueries::ran(alloc, &[2, 0, 1], 0, 2, true);
    let is_given = is_right(alloc, arrays, "[[0,1],[],[0]]");
    expect(&rt, is_given, "a subquery", 2);
}

#[test]
fn of_collect(rt: HostRuntime) {
    let alloc = rt.alloc();
    let groups = collects::ran(alloc, true, &collects::MEMBERS, 2, true);
    let is_given = is_right(alloc, groups, collects::MEMBERS.3);
    expect(&rt, is_given, "COLLECT", 2);
}
