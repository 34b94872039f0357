//! What a rule of the optimiser is: its trait, on expressions and on plans, the first place where
//! it applies, and the kinds of rules that have a pass of their own, with what these passes share.
#![tactic(auto)]

mod above;
mod apart;
mod changing;
mod constants;
mod equality;
mod exchange;
mod expr_rule;
mod expr_search;
mod exprs;
mod first_swap;
mod looking;
mod nodes;
mod part;
mod pass;
mod rebuilding;
mod removing;
mod renaming;
mod rule;
mod swap;

pub use above::{is_used, only, result_uses};
pub use apart::{has_body, is_start, replace_below, replace_body, with_below, with_body};
pub use changing::ChangingRule;
pub use constants::is_constant;
pub use equality::same_expr;
pub use exchange::ExchangeRule;
pub use expr_rule::ExprRule;
pub use expr_search::{first_in_expr, first_of};
pub use exprs::{exprs_of, node_exprs, set_exprs};
pub use looking::{add_maybe, children};
pub use nodes::{gives_new_rows, is_collect, uses_of};
pub use part::PartRule;
pub use pass::{first_place, run_pass};
pub use rebuilding::{add_new, over_children};
pub use removing::RemovingRule;
pub use renaming::rename_top;
pub use rule::Rule;
pub use swap::{Rename, Swap};
