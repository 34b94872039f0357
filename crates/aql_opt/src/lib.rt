//! The optimiser: the passes of the rules, one after another.
#![tactic(auto)]

mod driver;
mod estimates;
pub mod laws;
mod passes;
pub mod worked;

pub use driver::{Optimised, optimise};
pub use estimates::{Cost, estimate};
