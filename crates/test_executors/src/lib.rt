//! Tests of executors: each is turned by hand over lists as its inputs.
#![tactic(auto)]

#[cfg(test)]
mod tests;
