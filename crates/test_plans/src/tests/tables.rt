//! Well-formed plans as tables: in each row a plan that is refused, and its mended twin.

use crate::tests::facts::facts;
use crate::tests::plans::{fits_facts, is_well_formed, plan};
use aql_plan_check::well_formed;
use std::alloc::Global;
use std::process::Abort;
use std::test::Fail;

type Row = (&'static str, &'static str);

fn expect_rows(rt: &impl Abort, alloc: Global, rows: &[Row]) -> Result<(), Fail> {
    for (refused, mended) in rows {
        assert!(rt; !is_well_formed(alloc, refused)?, "{refused} is refused");
        assert!(rt; is_well_formed(alloc, mended)?, "{mended} is well formed");
    }
    Ok(())
}

// Outside fragments.
static OUTSIDE: [(&str, &str); 13] = [
    // a Return is at the top, and nowhere else
    ("E10--", "E10-- R1-"),
    ("R_- R_-", "R_-"),
    ("R_- F_ R_-", "F_ R_-"),
    // no shard is read by itself
    ("E100- R1-", "E10-- R1-"),
    ("I10000--- R1-", "I10-00--- R1-"),
    // an index in its order stands over a single row
    ("L1_ I20-00-a- R2-", "C1_ I20-00-a- R2-"),
    ("F_ I10-00-a- R1-", "Q2_ I10-00-a- R1-"),
    // no fragment begins without an end, and nothing comes over a link
    ("E10-- A0- R1-", "E10-- R1-"),
    ("E10-- D0_ R1-", "E10-- R1-"),
    ("E10-- > R1-", "E10-- R1-"),
    ("E10-- Ga R1-", "E10-- R1-"),
    // a body has a result
    ("Q1x R1-", "Q1_ R1-"),
    // a final Collect needs a partial one
    ("E10-- Kf21----- R2-", "E10-- Kw21----- R2-"),
];

// Fragments.
static FRAGMENTS: [(&str, &str); 20] = [
    // the lowest node reads the collection of its foot, without a shard of its own
    ("A0- > E11-- > Ga R1-", "A0- > E10-- > Ga R1-"),
    ("A0- > E100- > Ga R1-", "D0_ > E10-- > Ga R1-"),
    ("A0- > I11-00--- > Ga R1-", "A0- > I10-00--- > Ga R1-"),
    ("A0- > F_ > Ga R_-", "A0- > E10-- F_ > Ga R1-"),
    ("L1_ A0- > I20-00-a- > Ga R2-", "A0- > I20-00-a- > Ga R2-"),
    // the others that read have one
    ("A0- > E10-- E20-- > Ga R1-", "A0- > E10-- E201- > Ga R1-"),
    (
        "A0- > E10-- I20-00--- > Ga R1-",
        "A0- > E10-- I20100--- > Ga R1-",
    ),
    (
        "A0- > E10-- I20100-a- > Ga R1-",
        "A0- > E10-- I20100--- > Ga R1-",
    ),
    // links at both ends, and a Gather
    ("A0- E10-- > Ga R1-", "A0- > E10-- > Ga R1-"),
    ("A0- > E10-- Ga R1-", "A0- > E10-- > Ga R1-"),
    ("A0- > E10-- R1-", "A0- > E10-- > Ga R1-"),
    ("A0- > > E10-- > Ga R1-", "A0- > E10-- > Ga R1-"),
    // what stands in no fragment
    ("A0- > E10-- M01 > Ga R1-", "A0- > E10-- > Ga M01 R1-"),
    ("A0- > E10-- L2_ > Ga R1-", "A0- > E10-- > Ga L2_ R1-"),
    ("A0- > E10-- Q2_ > Ga R1-", "A0- > E10-- C2_ > Ga R1-"),
    (
        "A0- > E10-- T2--11_1-- > Ga R1-",
        "A0- > E10-- > Ga T2--11_1-- R1-",
    ),
    ("A0- > E10-- N > Ga R1-", "A0- > E10-- > Ga N R1-"),
    ("A0- > E10-- R1- > Ga R1-", "A0- > E10-- > Ga R1-"),
    (
        "A0- > E10-- Kw21----- > Ga R2-",
        "A0- > E10-- > Ga Kw21----- R2-",
    ),
    (
        "A0- > E10-- A0- > E20-- > Ga R1-",
        "E10-- A0- > E20-- > Ga R1-",
    ),
];

// Gathers with keys, and Collects in two stages.
static MERGES: [(&str, &str); 19] = [
    ("A0- > E10-- > Ga1 R1-", "A0- > E10-- Sa1 > Ga1 R1-"),
    ("A0- > E10-- Saa > Gab R1-", "A0- > E10-- Saa > Gaa R1-"),
    ("A0- > E10-- Saa > Gda R1-", "A0- > E10-- Sda > Gda R1-"),
    (
        "A0- > E10-- Saab > Gaa R1-",
        "A0- > E10-- Saab F_ C2_ > Gaab R1-",
    ),
    (
        "A0- > E10-- Saa E201- > Gaa R1-",
        "A0- > E10-- E201- Saa > Gaa R1-",
    ),
    ("A0- > I10-00-a- > Gaa R1-", "A0- > I10-00-a- > Gaab R1-"),
    ("A0- > I10-00-d- > Gaab R1-", "A0- > I10-00-d- > Gdab R1-"),
    ("A0- > I10-00-a- > Gaba R1-", "A0- > I10-00-a- > Ga R1-"),
    (
        "A0- > E10-- Kp21----- > Ga R2-",
        "A0- > E10-- Kp21----- > Ga Kf21----- R2-",
    ),
    (
        "A0- > E10-- Kp21----- > Ga Kf2a----- R2-",
        "A0- > E10-- Kp2a----- > Ga Kf2a----- R2-",
    ),
    (
        "A0- > E10-- Kp21----- > Ga Kf31----- R3-",
        "A0- > E10-- Kp31----- > Ga Kf31----- R3-",
    ),
    (
        "A0- > E10-- Kp213s1-- > Ga Kf213l1-- R3-",
        "A0- > E10-- Kp213l1-- > Ga Kf213l1-- R3-",
    ),
    (
        "A0- > E10-- Kp213s1-- > Ga Kf213sa-- R3-",
        "A0- > E10-- Kp213s1-- > Ga Kf213s1-- R3-",
    ),
    (
        "A0- > E10-- Kp21---4_ > Ga Kf21---4_ R2-",
        "A0- > E10-- > Ga Kw21---4_ R2-",
    ),
    (
        "A0- > E10-- Kp21----- > Ga Kf21---4_ R2-",
        "A0- > E10-- Kp21----- > Ga Kf21----- R2-",
    ),
    (
        "A0- > E10-- Kp21----- > Ga2 Kf21----- R2-",
        "A0- > E10-- Kp21----- > Ga Kf21----- R2-",
    ),
    (
        "A0- > E10-- Kp21----- F_ > Ga Kf21----- R2-",
        "A0- > E10-- F_ Kp21----- > Ga Kf21----- R2-",
    ),
    (
        "A0- > E10-- Kp21----- > Ga F_ Kf21----- R2-",
        "A0- > E10-- Kp21----- > Ga Kf21----- F_ R2-",
    ),
    (
        "A0- > E10-- Kp21----- > Ga Kw21----- R2-",
        "A0- > E10-- Kp21----- > Ga Kf21----- R2-",
    ),
];

// What each node needs by itself.
static NODES: [(&str, &str); 14] = [
    ("E12-- R1-", "E11-- R1-"),
    ("A0- > E10-- E202- > Ga R1-", "A0- > E10-- E201- > Ga R1-"),
    ("A02 > E10-- > Ga R1-", "A01 > E10-- > Ga R1-"),
    ("A2- > E12-- > Ga R1-", "A1- > E11-- > Ga R1-"),
    ("D2_ > E12-- > Ga R1-", "D1_ > E11-- > Ga R1-"),
    ("D0 > E10-- > Ga R1-", "D0_ > E10-- > Ga R1-"),
    ("D0__ > E10-- > Ga R1-", "D0_ > E10-- > Ga R1-"),
    ("T1--11_0-- R1-", "T1--11_1-- R1-"),
    ("T1--11_2-- R1-", "T1--11_1-- R1-"),
    ("T1--11_t-- R1-", "T1--11_1-- R1-"),
    ("T1--21_1-- R1-", "T1--12_1-- R1-"),
    ("M1h R_-", "M0h R_-"),
    ("Kw--2x_-- R2-", "Kw--2s_-- R2-"),
    ("Kw--2s--- R2-", "Kw--2l--- R2-"),
];

// The same of an index, with its subqueries and what it uses.
static INDEXES: [(&str, &str); 16] = [
    ("I12-00--- R1-", "I10-00--- R1-"),
    ("I10-30--- R1-", "I10-00--- R1-"),
    (
        "A0- > E10-- I20200--- > Ga R1-",
        "A0- > E10-- I20100--- > Ga R1-",
    ),
    ("I10-03--- R1-", "I10-02--- R1-"),
    ("I10-02o-- R1-", "I10-01o-- R1-"),
    ("I10-02r-- R1-", "I10-01r-- R1-"),
    ("I10-10--- R1-", "I10-11--- R1-"),
    ("I10-10r-- R1-", "I10-10o-- R1-"),
    ("I10-11-a- R1-", "I10-21--- R1-"),
    ("I10-00-aa R1-", "I10-00-ak R1-"),
    ("I10-0s--- R1-", "I10-01--- R1-"),
    ("I10-00q-- R1-", "I10-00o-- R1-"),
    ("I10-00---s R1-", "I10-00---_ R1-"),
    ("I10-0v--- R1-", "C2_ I10-0v--- R1-"),
    ("I10-00v-- R1-", "C2_ I10-00v-- R1-"),
    ("I10-00---2 R1-", "I10-00---1 R1-"),
];

// No expression holds a subquery, and INTO has its expression.
static EXPRESSIONS: [(&str, &str); 16] = [
    ("E10-s R1-", "E10-_ R1-"),
    ("I10-00s-- R1-", "I10-00r-- R1-"),
    ("L1s R1-", "L1_ R1-"),
    ("T1--11s1-- R1-", "T1--11_1-- R1-"),
    ("T1--11_1s- R1-", "T1--11_1_- R1-"),
    ("T1--11_1-s R1-", "T1--11_1-_ R1-"),
    ("C1s R1-", "C1_ R1-"),
    ("Q1s R1-", "Q1_ R1-"),
    ("Fs R_-", "F_ R_-"),
    ("Sas R_-", "Sa_ R_-"),
    ("Kw1s----- R1-", "Kw1_----- R1-"),
    ("Kw--1ss-- R1-", "Kw--1s_-- R1-"),
    ("Kw-----1s R1-", "Kw-----1_ R1-"),
    ("Kw-----1- R1-", "Kw-----1_ R1-"),
    ("Rs-", "R_d"),
    ("D0s > E10-- > Ga R1-", "D0_ > E10-- > Ga R1-"),
];

// Each variable that is used is there.
static USES: [(&str, &str); 18] = [
    ("R1-", "C1_ R1-"),
    ("Rn-", "R_-"),
    ("F1 C1_ R1-", "C1_ F1 R1-"),
    ("E10-2 R1-", "E10-1 R1-"),
    ("L11 R1-", "C2_ L12 R1-"),
    ("T1--1111-- R1-", "C2_ T1--1121-- R1-"),
    ("T1--11_12- R1-", "T12-11_12- R1-"),
    ("T1--11_1-3 R1-", "T12311_1-3 R1-"),
    ("C12 R1-", "C2_ C12 R1-"),
    ("Sa1 R_-", "C1_ Sa1 R_-"),
    ("Kw12----- R1-", "C2_ Kw12----- R1-"),
    ("Kw--1s2-- R1-", "C2_ Kw--1s2-- R1-"),
    ("Kw-----12 R1-", "C2_ Kw-----12 R1-"),
    ("C1_ Kw2_----- R1-", "C1_ Kw2_----- R2-"),
    ("Q12 R1-", "C2_ Q12 R1-"),
    ("Q11 R1-", "C2_ Q12 R1-"),
    ("Q2d R1-", "Q2d R2-"),
    ("D01 > E10-- > Ga R1-", "C2_ D02 > E10-- > Ga R1-"),
];

// None is set twice, and all are numbers from 1 on.
static SETS: [(&str, &str); 15] = [
    ("C1_ C1_ R1-", "C1_ C2_ R1-"),
    ("C1_ Q1_ R1-", "C1_ Q2_ R1-"),
    ("C1_ Q2d R2-", "C3_ Q2d R2-"),
    ("T11-11_1-- R1-", "T12-11_1-- R1-"),
    ("T1-111_1-- R1-", "T1-211_1-- R1-"),
    ("Kw1_1s_-- R1-", "Kw1_2s_-- R1-"),
    ("C0_ R_-", "C1_ R_-"),
    ("E00-- R_-", "E10-- R_-"),
    ("I00-00--- R_-", "I10-00--- R_-"),
    ("L0_ R_-", "L1_ R_-"),
    ("Q0_ R_-", "Q1_ R_-"),
    ("T0--11_1-- R_-", "T1--11_1-- R_-"),
    ("Kwn_----- R_-", "Kw1_----- R_-"),
    ("Kw--ns_-- R_-", "Kw--1s_-- R_-"),
    ("Kw-----n_ R_-", "Kw-----1_ R_-"),
];

#[test]
fn outside(rt: HostRuntime) -> Result<(), Fail> {
    expect_rows(&rt, rt.alloc(), &OUTSIDE)
}

#[test]
fn fragments(rt: HostRuntime) -> Result<(), Fail> {
    expect_rows(&rt, rt.alloc(), &FRAGMENTS)
}

#[test]
fn merges(rt: HostRuntime) -> Result<(), Fail> {
    expect_rows(&rt, rt.alloc(), &MERGES)
}

#[test]
fn nodes(rt: HostRuntime) -> Result<(), Fail> {
    expect_rows(&rt, rt.alloc(), &NODES)
}

#[test]
fn indexes(rt: HostRuntime) -> Result<(), Fail> {
    expect_rows(&rt, rt.alloc(), &INDEXES)
}

#[test]
fn expressions(rt: HostRuntime) -> Result<(), Fail> {
    expect_rows(&rt, rt.alloc(), &EXPRESSIONS)
}

#[test]
fn uses(rt: HostRuntime) -> Result<(), Fail> {
    expect_rows(&rt, rt.alloc(), &USES)
}

#[test]
fn sets(rt: HostRuntime) -> Result<(), Fail> {
    expect_rows(&rt, rt.alloc(), &SETS)
}

// At least one shard, one to eight shard keys, and one width more than attributes.
#[test]
fn collections(rt: HostRuntime) -> Result<(), Fail> {
    let alloc = rt.alloc();
    assert!(rt; fits_facts(alloc, 1, b"kkkkkkkk", 3)?);
    assert!(rt; !fits_facts(alloc, 0, b"k", 3)?);
    assert!(rt; !fits_facts(alloc, 1, b"", 3)?);
    assert!(rt; !fits_facts(alloc, 1, b"kkkkkkkkk", 3)?);
    assert!(rt; !fits_facts(alloc, 1, b"k", 2)?);
    assert!(rt; !fits_facts(alloc, 1, b"k", 4)?);
    Ok(())
}

// A plan with every node.
static WHOLE: &str =
    "C1_ Q21 L31 A0- > E40-4 I50000--- F4 Sa4 > Ga4 T678115167 N M12 Kw94----- R9d";

#[test]
fn copies(rt: HostRuntime) -> Result<(), Fail> {
    let alloc = rt.alloc();
    let whole = plan(alloc, WHOLE)?;
    let known = facts(alloc, 2, b"k", 3)?;
    let copy = whole.copy(alloc)?;
    assert!(rt; well_formed(alloc, &copy, &known)?);
    let set = copy.vars_set(alloc)?;
    assert_eq!(rt; set.as_slice(), [9, 6, 7, 8, 5, 4, 3, 2, 1].as_slice());
    let used = copy.vars_used(alloc)?;
    assert_eq!(rt;
        used.as_slice(),
        [9, 4, 5, 6, 7, 4, 4, 4, 4, 1, 1].as_slice()
    );
    Ok(())
}
