//! Tests of what the program is made of: streams, the catalog, scripts, queries, and the whole run.
#![tactic(auto)]

#[cfg(test)]
mod tests;
