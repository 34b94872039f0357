//! Messages between servers: those in flight, the log of all that was sent and taken, and pickers
//! of the one that is delivered next.
#![tactic(auto)]

mod list_picker;
mod logs;
mod net;
mod schedule;
mod text;
mod worlds;

pub use list_picker::{ListPicker, Picks};
pub use logs::{Log, LogEntry, Sort};
pub use net::{Envelope, Net};
pub use schedule::Schedule;
pub use text::log_text;
