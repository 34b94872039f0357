use crate::{Keyword, Symbol};
use aql_value::{Seq, Text};

/// The tokens of a text, in its order.
pub type Tokens = Seq<Token>;

/// A token, and the bytes of the text that spell it: from `start`, counted from 0, up to `end`.
pub struct Token {
    pub start: u32,
    pub end: u32,
    pub kind: TokenKind,
}

/// What a token is (AQL fundamentals, Syntax). A name holds the bytes that stand in the text, a
/// quoted one without its backticks; a text holds what it stands for, without quotes and escapes; a
/// number is 0 or more.
pub enum TokenKind {
    Word(Text),
    Quoted(Text),
    Keyword(Keyword),
    Number(i64),
    Text(Text),
    Symbol(Symbol),
}

impl Drop for Token {
    fn drop(self) {
        let Token {
            start: _,
            end: _,
            kind: _,
        } = self;
    }
}

impl Drop for TokenKind {
    fn drop(self) {
        match self {
            TokenKind::Word(_)
            | TokenKind::Quoted(_)
            | TokenKind::Keyword(_)
            | TokenKind::Number(_)
            | TokenKind::Text(_)
            | TokenKind::Symbol(_) => {}
        }
    }
}
