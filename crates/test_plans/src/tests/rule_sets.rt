//! Sets of rules.

use aql_plan::{RuleName, Rules};

// The first rules, one of the middle, and the last.
static NAMES: [RuleName; 5] = [
    RuleName::SimplifyConditions,
    RuleName::InlineSubqueries,
    RuleName::UseIndexes,
    RuleName::CollectInCluster,
    RuleName::DistributeSortToCluster,
];

#[test]
fn sets(rt: HostRuntime) {
    for rule in &NAMES {
        assert!(rt; Rules::all().has(*rule), "all have {rule}");
        let one = Rules::none().with(*rule);
        for other in &NAMES {
            assert!(rt; one.has(*other) == (rule == other), "{other} with {rule}");
        }
    }
}
