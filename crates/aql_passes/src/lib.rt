//! How rules run: the passes that go on at the place that the rule rewrote.
#![tactic(auto)]

mod changing_pass;
mod exchange_pass;
mod expr_pass;
mod exprs;
mod first_rewrite;
mod part_pass;
mod removing_pass;

pub use changing_pass::run_changing_pass;
pub use exchange_pass::run_exchange_pass;
pub use expr_pass::run_expr_pass;
pub use part_pass::run_part_pass;
pub use removing_pass::run_removing_pass;
