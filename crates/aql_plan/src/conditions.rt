//! Conditions of filters.

ghost use Rattle.std.specs.Prelude.{◌≡◌, map};
ghost use Rattle.aql_tree.specs.View.{links, link_part};
ghost use Rattle.aql_plan.specs.FirstPlan.{all_and};

use aql_func::BinOp;
use aql_tree::Link;

/// Whether the operator of each link of a chain is `&&`.
pub fn is_all_and(rest: &[Link]) -> bool
    ensures { result ≡ all_and (links (map link_part rest.now)) }
{
    for link in rest {
        match link.op {
            BinOp::And => {}
            _ => return false,
        }
    }
    true
}
