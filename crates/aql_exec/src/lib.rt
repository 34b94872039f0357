//! Executors: the laws that feeds and executors keep, and the executors for the start row, LET,
//! FILTER, LIMIT, RETURN and no rows.
#![tactic(auto)]

mod calculation;
mod distinct;
mod feed;
mod filter;
mod limit;
mod links;
mod mapped;
mod no_results;
mod returning;
mod singleton;
mod steps;
mod stream;
mod surroundings;
mod transform;
mod turns;
mod unlinked;
mod values;

pub use calculation::{Calculation, Let};
pub use distinct::{FirstResults, ReturnDistinct};
pub use feed::{Executor, Feed};
pub use filter::{Filter, Keep};
pub use limit::Limit;
pub use links::{Delivered, Delivers, Mail, Picker, Wired, Wires};
pub use mapped::{Mapped, RowMap};
pub use no_results::NoResults;
pub use returning::{Results, Return};
pub use singleton::Singleton;
pub use steps::nothing;
pub use stream::Stream;
pub use surroundings::Surroundings;
pub use transform::Transform;
pub use turns::{Message, Turn};
pub use unlinked::{AsWired, Unlinked};
pub use values::{take_front, values_in, variable_values};
