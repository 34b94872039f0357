//! Tests of plans and of the optimiser's rules: what is well formed, copies, the variables that are
//! set and used, the walks of rules, and small plans and expressions, each with what a rule makes
//! of it; and what indexes over a few documents find.
#![tactic(auto)]

#[cfg(test)]
mod tests;
