//! Rules on calculations, and on what is kept of documents: each stands in the file of the name
//! that plans print.
//! The optimiser's rules on the conditions that stand in plans: rules on expressions, each in the
//! file of the name that plans print.
#![tactic(auto)]

mod move_calculations_up;
mod needs;
mod reduce_extraction_to_projection;
mod remove_redundant_calculations;
mod remove_unnecessary_calculations;
mod replace_or_with_in;
mod simplify_conditions;

pub use move_calculations_up::MoveCalculationsUp;
pub use reduce_extraction_to_projection::ReduceExtractionToProjection;
pub use remove_redundant_calculations::RemoveRedundantCalculations;
pub use remove_unnecessary_calculations::RemoveUnnecessaryCalculations;
pub use replace_or_with_in::ReplaceOrWithIn;
pub use simplify_conditions::{SimplifyConditions, constant_value};
