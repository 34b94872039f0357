//! How tightly operators bind.

ghost use Rattle.std.specs.Prelude.{◌≡◌};
ghost use Rattle.aql_grammar.specs.Operators.{tighter};

/// How tightly an operator binds, from the tightest on.
#[derive(Clone, Copy, Debug, PartialEq, Eq)]
pub enum Precedence {
    /// `*`, `/` and `%`
    Product,
    /// `+` and `-`
    Sum,
    /// `..`
    Range,
    /// `<`, `<=`, `>` and `>=`
    Relation,
    /// IN and NOT IN
    Membership,
    /// `==`, `!=`, LIKE and NOT LIKE
    Equality,
    /// a comparison after ALL, ANY or NONE
    ArrayComparison,
    /// AND
    Conjunction,
    /// OR
    Disjunction,
}

impl Precedence {
    /// The next tighter precedence. The operands of the tightest have no operator between two.
    pub fn tighter(self) -> Option<Precedence>
        ensures { result ≡ tighter self }
    {
        match self {
            Precedence::Product => None,
            Precedence::Sum => Some(Precedence::Product),
            Precedence::Range => Some(Precedence::Sum),
            Precedence::Relation => Some(Precedence::Range),
            Precedence::Membership => Some(Precedence::Relation),
            Precedence::Equality => Some(Precedence::Membership),
            Precedence::ArrayComparison => Some(Precedence::Equality),
            Precedence::Conjunction => Some(Precedence::ArrayComparison),
            Precedence::Disjunction => Some(Precedence::Conjunction),
        }
    }
}
