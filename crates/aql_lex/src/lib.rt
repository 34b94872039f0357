//! The tokens of a query's text, and the faults of a text that has none.
#![tactic(auto)]

mod characters;
mod faults;
mod kinds;
mod reading;
mod scans;
mod texts;
mod vocabulary;

pub use faults::{LexFault, LexKind};
pub use kinds::{Token, TokenKind, Tokens};
pub use reading::{lex, text_has_one_reading};
pub use scans::keyword;
pub use vocabulary::{Keyword, Symbol};
