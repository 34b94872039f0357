//! The top call: all that the program does. From the text of a query to the scoped query, or the
//! first cause of a refusal.
#![tactic(auto)]

mod faults;
mod output;
mod planning;
mod printing;
mod query_faults;
mod reading;
mod scripts;
mod shell;
mod texts;

pub use query_faults::QueryFault;
pub use reading::read_query;
pub use shell::run_shell;
pub use texts::query_fault_text;
