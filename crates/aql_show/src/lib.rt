//! The text of a plan: its nodes, the rules that made it and its cost.
#![tactic(auto)]

mod bounds;
mod exprs;
mod known;
mod names;
mod nodes;
mod parts;
mod plans;
mod words;
pub mod worked;
mod writing;

pub use plans::plan_text;
