//! The two ways in which a tree is written.

use crate::Page;
use aql_func::{BinOp, UnaryOp};
use aql_tree::Expr;

/// How a tree is written.
#[derive(Clone, Copy, PartialEq, Eq)]
pub enum Notation {
    /// For a parsed tree: each operation in brackets, operators by the names of their variants, a
    /// word for a part that isn't there.
    Bracketed,
    /// For a scoped tree: operators as they are spelled, no word for a part that isn't there, a
    /// semicolon after each clause; a variable that is no number gets a question mark.
    Spelled,
}

impl Notation {
    /// The text for this notation, of one for each.
    pub fn either(self, bracketed: &'static str, spelled: &'static str) -> &'static str {
        match self {
            Notation::Bracketed => bracketed,
            Notation::Spelled => spelled,
        }
    }

    /// What stands before the parts of an expression.
    pub fn opening(self, expr: &Expr) -> &'static str {
        match expr {
            Expr::Lit(_) | Expr::Var(_) | Expr::Current | Expr::Call { .. } => "",
            Expr::List(_) => "[",
            Expr::Object(_) => "{",
            Expr::Access { .. } => self.either("<", ""),
            Expr::Sub(_) => self.either("(query", "("),
            _ => self.either("(", ""),
        }
    }

    /// What stands after them.
    pub fn closing(self, expr: &Expr) -> &'static str {
        match expr {
            Expr::Lit(_) | Expr::Var(_) | Expr::Current => "",
            Expr::List(_) => " ]",
            Expr::Object(_) => " }",
            Expr::Access { .. } => self.either(">", ""),
            Expr::Call { .. } => " )",
            Expr::Sub(_) => ")",
            _ => self.either(")", ""),
        }
    }

    /// Writes the operator of a chain or of an array comparison.
    pub fn write_operator(self, op: BinOp, page: &mut Page) {
        match self {
            Notation::Bracketed => page.put_named(&op),
            Notation::Spelled => page.put(spelling(op)),
        }
    }

    /// Writes an operator before its operand.
    pub fn write_sign(self, op: UnaryOp, page: &mut Page) {
        match self {
            Notation::Bracketed => {
                page.put_named(&op);
                page.put(" ");
            }
            Notation::Spelled => page.put(sign(op)),
        }
    }
}

// The spelling of the operators that the tables of scoped queries have.
fn spelling(op: BinOp) -> &'static str {
    match op {
        BinOp::And => "&&",
        BinOp::Or => "||",
        BinOp::Eq => "==",
        BinOp::Lt => "<",
        BinOp::IsIn => "in",
        BinOp::Add => "+",
        _ => "?",
    }
}

fn sign(op: UnaryOp) -> &'static str {
    match op {
        UnaryOp::Plus => "+",
        UnaryOp::Minus => "-",
        UnaryOp::Not => "!",
    }
}
