//! Tests of the lower libraries: values, tokens, functions, aggregates, copies, parsing
//! and evaluation.
#![tactic(auto)]

#[cfg(test)]
mod tests;
