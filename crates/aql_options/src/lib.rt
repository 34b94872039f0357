//! The options of a run: the settings that the words of the command line give, and the script that
//! is made where none is read.
#![tactic(auto)]

mod command;
mod generated;
mod rule_lists;
mod settings;
mod values;
mod words;

pub use generated::generate;
pub use settings::Settings;
pub use words::{WordsFault, parse_words};
