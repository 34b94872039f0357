//! Plans of queries: the tree of a plan, what it means, what its nodes use, and what is known of
//! the collections when a query is planned.
#![tactic(auto)]

mod conditions;
mod facts;
mod node_uses;
mod nodes;
mod plan;
mod rule_sets;
mod rules;
mod uses;
mod variables;
pub mod worked;

pub use aql_meaning::{Edge, Last, Stage, TraversalOptions};
pub use conditions::is_all_and;
pub use facts::{CollFact, CollFacts, Facts, IndexFact, IndexFacts, IndexKind, Widths, index_of};
pub use node_uses::add_own_uses;
pub use plan::{Node, Passed, Plan, Plans};
pub use rule_sets::Rules;
pub use rules::{RuleName, RuleNames};
pub use uses::{Use, Uses, add_all_uses, add_maybe_uses, add_uses};
