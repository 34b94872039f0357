//! Which operators tokens are.

ghost use Rattle.std.specs.Prelude.{◌≡◌, option_copied};
ghost use Rattle.aql_grammar.specs.Input as input;
ghost use Rattle.aql_grammar.specs.Input.{Reads};
ghost use Rattle.aql_grammar.specs.Reader as reader;

use crate::ParseFault;
use crate::cursor::Cursor;
use crate::precedence::Precedence;
use aql_func::{BinOp, UnaryOp};
use aql_lex::{Keyword, Symbol, TokenKind};
use aql_tree::{Direction, QuantKind};

fn operator_of_symbol(symbol: Symbol) -> Option<(Precedence, BinOp)>
    ensures { result ≡ reader.operator_of_symbol symbol }
{
    match symbol {
        Symbol::Star => Some((Precedence::Product, BinOp::Mul)),
        Symbol::Slash => Some((Precedence::Product, BinOp::Div)),
        Symbol::Percent => Some((Precedence::Product, BinOp::Rem)),
        Symbol::Plus => Some((Precedence::Sum, BinOp::Add)),
        Symbol::Minus => Some((Precedence::Sum, BinOp::Sub)),
        Symbol::Less => Some((Precedence::Relation, BinOp::Lt)),
        Symbol::LessOrEqual => Some((Precedence::Relation, BinOp::Le)),
        Symbol::Greater => Some((Precedence::Relation, BinOp::Gt)),
        Symbol::GreaterOrEqual => Some((Precedence::Relation, BinOp::Ge)),
        Symbol::Equal => Some((Precedence::Equality, BinOp::Eq)),
        Symbol::NotEqual => Some((Precedence::Equality, BinOp::Ne)),
        Symbol::And => Some((Precedence::Conjunction, BinOp::And)),
        Symbol::Or => Some((Precedence::Disjunction, BinOp::Or)),
        _ => None,
    }
}

fn operator_of_keyword(keyword: Keyword) -> Option<(Precedence, BinOp)>
    ensures { result ≡ reader.operator_of_keyword keyword }
{
    match keyword {
        Keyword::In => Some((Precedence::Membership, BinOp::IsIn)),
        Keyword::Like => Some((Precedence::Equality, BinOp::Like)),
        Keyword::And => Some((Precedence::Conjunction, BinOp::And)),
        Keyword::Or => Some((Precedence::Disjunction, BinOp::Or)),
        _ => None,
    }
}

fn operator_after_not(next: Option<&TokenKind>) -> Option<(Precedence, BinOp)>
    ensures { result ≡ reader.operator_after_not (option_copied next.entry) }
{
    match next {
        Some(TokenKind::Keyword(Keyword::In)) => Some((Precedence::Membership, BinOp::NotIn)),
        Some(TokenKind::Keyword(Keyword::Like)) => Some((Precedence::Equality, BinOp::NotLike)),
        _ => None,
    }
}

fn compares(op: BinOp) -> bool
    ensures { result ≡ reader.compares op }
{
    matches!(
        op,
        BinOp::Eq
            | BinOp::Ne
            | BinOp::Lt
            | BinOp::Le
            | BinOp::Gt
            | BinOp::Ge
            | BinOp::IsIn
            | BinOp::NotIn
    )
}

fn has_two_words(op: BinOp) -> bool
    ensures { result ≡ reader.has_two_words op }
{
    matches!(op, BinOp::NotIn | BinOp::NotLike)
}

/// Whether ALL, ANY or NONE stands there.
pub fn begins_quantifier(next: Option<&TokenKind>) -> bool
    ensures { result ≡ reader.begins_quantifier (option_copied next.entry) }
{
    matches!(
        next,
        Some(TokenKind::Keyword(Keyword::All | Keyword::Any | Keyword::None))
    )
}

pub fn unary_at(next: Option<&TokenKind>) -> Option<UnaryOp>
    ensures { result ≡ reader.unary_at (option_copied next.entry) }
{
    match next {
        Some(TokenKind::Symbol(Symbol::Plus)) => Some(UnaryOp::Plus),
        Some(TokenKind::Symbol(Symbol::Minus)) => Some(UnaryOp::Minus),
        Some(TokenKind::Symbol(Symbol::Not)) => Some(UnaryOp::Not),
        Some(TokenKind::Keyword(Keyword::Not)) => Some(UnaryOp::Not),
        _ => None,
    }
}

pub fn begins_step(next: Option<&TokenKind>) -> bool
    ensures { result ≡ reader.begins_step (option_copied next.entry) }
{
    matches!(
        next,
        Some(TokenKind::Symbol(Symbol::Dot | Symbol::OpenBracket))
    )
}

pub fn begins_clause(next: Option<&TokenKind>) -> bool
    ensures { result ≡ reader.begins_clause (option_copied next.entry) }
{
    matches!(
        next,
        Some(TokenKind::Keyword(
            Keyword::For
                | Keyword::Filter
                | Keyword::Let
                | Keyword::Sort
                | Keyword::Limit
                | Keyword::Collect
        ))
    )
}

pub fn begins_query(next: Option<&TokenKind>) -> bool
    ensures { result ≡ reader.begins_query (option_copied next.entry) }
{
    match next {
        Some(TokenKind::Keyword(Keyword::Return)) => true,
        other => begins_clause(other),
    }
}

pub fn is_name(next: Option<&TokenKind>) -> bool
    ensures { result ≡ input.is_name (option_copied next.entry) }
{
    matches!(next, Some(TokenKind::Word(_) | TokenKind::Quoted(_)))
}

pub fn is_number(next: Option<&TokenKind>) -> bool
    ensures { result ≡ input.is_number (option_copied next.entry) }
{
    matches!(next, Some(TokenKind::Number(_)))
}

impl<'a> Cursor<'a> {
    // The operator that comes next, with its precedence.
    #[tactic(auto, unfolding(crate::specs::Reader::operator_ahead))]
    fn operator_ahead(&self) -> Option<(Precedence, BinOp)>
        ensures { result ≡ reader.operator_ahead self.now }
    {
        match self.peek() {
            Some(TokenKind::Symbol(symbol)) => operator_of_symbol(*symbol),
            Some(TokenKind::Keyword(Keyword::Not)) => operator_after_not(self.peek_second()),
            Some(TokenKind::Keyword(keyword)) => operator_of_keyword(*keyword),
            _ => None,
        }
    }

    /// Whether an operator of this precedence comes next.
    #[tactic(auto, unfolding(crate::specs::Reader::sees_operator, crate::specs::Reader::same_precedence))]
    pub fn sees_operator(&self, precedence: Precedence) -> bool
        ensures { result ≡ reader.sees_operator precedence self.now }
    {
        match self.operator_ahead() {
            Some((found, _)) => found == precedence,
            None => false,
        }
    }

    /// Takes an operator.
    #[tactic(auto, unfolding(crate::specs::Reader::operator, crate::specs::Reader::after_operator))]
    pub fn operator(&mut self) -> Result<BinOp, ParseFault>
        ensures { Reads (reader.operator self.old) result self.new }
    {
        let Some((_, op)) = self.operator_ahead() else {
            return Err(ParseFault::NotInGrammar);
        };
        self.take();
        if has_two_words(op) {
            self.take();
        }
        Ok(op)
    }

    #[tactic(auto, unfolding(crate::specs::Reader::begins_comparison))]
    fn begins_comparison(&self) -> bool
        ensures { result ≡ reader.begins_comparison self.now }
    {
        match self.operator_ahead() {
            Some((_, op)) => compares(op),
            None => false,
        }
    }

    /// Takes a comparison, IN or NOT IN.
    #[tactic(auto, unfolding(crate::specs::Reader::comparison))]
    pub fn comparison(&mut self) -> Result<BinOp, ParseFault>
        ensures { Reads (reader.comparison self.old) result self.new }
    {
        if self.begins_comparison() {
            self.operator()
        } else {
            Err(ParseFault::NotInGrammar)
        }
    }

    /// Takes ALL, ANY or NONE.
    #[tactic(auto, unfolding(crate::specs::Reader::quantifier))]
    pub fn quantifier(&mut self) -> Result<QuantKind, ParseFault>
        ensures { Reads (reader.quantifier self.old) result self.new }
    {
        let kind = match self.peek() {
            Some(TokenKind::Keyword(Keyword::All)) => QuantKind::All,
            Some(TokenKind::Keyword(Keyword::Any)) => QuantKind::Any,
            Some(TokenKind::Keyword(Keyword::None)) => QuantKind::None,
            _ => return Err(ParseFault::NotInGrammar),
        };
        self.take();
        Ok(kind)
    }

    /// Takes OUTBOUND, INBOUND or ANY.
    #[tactic(auto, unfolding(crate::specs::Reader::traversal_direction))]
    pub fn traversal_direction(&mut self) -> Result<Direction, ParseFault>
        ensures { Reads (reader.traversal_direction self.old) result self.new }
    {
        let direction = match self.peek() {
            Some(TokenKind::Keyword(Keyword::Outbound)) => Direction::Outbound,
            Some(TokenKind::Keyword(Keyword::Inbound)) => Direction::Inbound,
            Some(TokenKind::Keyword(Keyword::Any)) => Direction::Any,
            _ => return Err(ParseFault::NotInGrammar),
        };
        self.take();
        Ok(direction)
    }

    // ANY with a comparison after it is part of an expression.
    #[tactic(auto, unfolding(crate::specs::Reader::begins_direction))]
    fn begins_direction(&self) -> bool
        ensures { result ≡ reader.begins_direction self.now }
    {
        match self.peek() {
            Some(TokenKind::Keyword(Keyword::Outbound | Keyword::Inbound)) => true,
            Some(TokenKind::Keyword(Keyword::Any)) => {
                let mut ahead = self.ahead();
                ahead.take();
                !ahead.begins_comparison()
            }
            _ => false,
        }
    }

    #[tactic(auto, unfolding(crate::specs::Reader::begins_after_number))]
    fn begins_after_number(&self) -> bool
        ensures { result ≡ reader.begins_after_number self.now }
    {
        let mut ahead = self.ahead();
        if self.sees(Symbol::Range) && is_number(self.peek_second()) {
            ahead.take();
            ahead.take();
        }
        ahead.begins_direction()
    }

    /// Whether a traversal stands after IN: a direction, also after a depth.
    #[tactic(auto, unfolding(crate::specs::Reader::begins_traversal))]
    pub fn begins_traversal(&self) -> bool
        ensures { result ≡ reader.begins_traversal self.now }
    {
        if is_number(self.peek()) {
            let mut ahead = self.ahead();
            ahead.take();
            ahead.begins_after_number()
        } else {
            self.begins_direction()
        }
    }
}
