//! The operators of expressions.

/// An operator between two operands (AQL fundamentals, Operators).
#[derive(Clone, Copy, Debug)]
pub enum BinOp {
    And,
    Or,
    Eq,
    Ne,
    Lt,
    Le,
    Gt,
    Ge,
    IsIn,
    NotIn,
    Like,
    NotLike,
    Add,
    Sub,
    Mul,
    Div,
    Rem,
}

/// An operator before its operand (AQL fundamentals, Operators).
#[derive(Clone, Copy, Debug)]
pub enum UnaryOp {
    Plus,
    Minus,
    Not,
}
