//! Equality of variables.

ghost use Rattle.std.specs.Prelude.{◌≡◌, ◌↔◌, IsTrue};
ghost use Rattle.aql_meaning.specs.Row.{same_ident};

use aql_tree::Ident;

/// Whether two variables are the same.
pub fn same_variable(a: &Ident, b: &Ident) -> bool
    ensures same { result ≡ same_ident a.now b.now }
    ensures equal { IsTrue result ↔ (a.now ≡ b.now) }
{
    match (a, b) {
        (Ident::Name(a), Ident::Name(b)) => a.as_str() == b.as_str(),
        (Ident::Num(a), Ident::Num(b)) => *a == *b,
        _ => false,
    }
}
