//! What is known where a part of a plan is written.

use aql_plan::Facts;
use aql_value::Names;
use std::alloc::Global;

/// The names of the variables, and the collections.
#[derive(Clone, Copy)]
pub struct Known<'a> {
    pub alloc: Global,
    pub names: &'a Names,
    pub facts: &'a Facts,
}
