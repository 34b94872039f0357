// Rows of variables.
ghost use Rattle.std.specs.Prelude.{ℕ, List, ◌≡◌, IfOk, None, option_map};
ghost use Rattle.aql_value.specs.Datum.{null};
ghost use Rattle.aql_value.specs.View.{datum_of};
ghost use Rattle.aql_tree.specs.declared.syntax.Ident.TheVariants.{Name, Num};
ghost use Rattle.aql_meaning.specs.Row.{Row, value_at};
ghost use Rattle.aql_block.specs.Rows.{row_of};

use aql_block::RowRef;
use aql_tree::Ident;
use aql_value::{OutOfMemory, Value, copy};
use std::alloc::Global;

/// A row of numbered variables, as clauses hand it on once a query's names are scoped (High-level
/// operations).
pub trait RowView {
    /// The values of the variables.
    ghost vars: { Self → Row };

    /// The value of a variable; `None` exactly where the row has no such variable.
    fn value(&self, var: u32) -> Option<&Value>
        ensures { option_map (λ v. datum_of v.now) result ≡ vars self.now (Num var) };

    /// No variable goes by a name.
    ghost numbered: { (row : Self) (name : List ℕ) → vars row (Name name) ≡ None };
}

impl RowView for aql_block::Row {
    ghost use Rattle.aql_block.specs.laws.BlockRows.{no_names};

    ghost vars = { λ r. row_of r };

    fn value(&self, var: u32) -> Option<&Value> {
        self.value(var)
    }

    ghost numbered = { λ r name. no_names r name };
}

impl RowView for RowRef<'_> {
    ghost use Rattle.aql_block.specs.laws.BlockRows.{no_names};

    ghost vars = { λ r. row_of r };

    fn value(&self, var: u32) -> Option<&Value> {
        self.value(var)
    }

    ghost numbered = { λ r name. no_names r name };
}

// The value of a variable, and `missing`, which is null, where the row has no such variable.
pub(crate) fn value_of<'a, R: RowView>(row: &'a R, ident: &Ident, missing: &'a Value) -> &'a Value
    requires { datum_of missing.now ≡ null }
    ensures { datum_of result.now ≡ value_at (R.vars row.now) ident.now }
{
    match ident {
        Ident::Name(_) => missing,
        Ident::Num(number) => match row.value(*number) {
            Some(value) => value,
            None => missing,
        },
    }
}

// A copy of the value of a variable; null where the row has no such variable.
pub(crate) fn copy_of<R: RowView>(
    alloc: Global,
    row: &R,
    ident: &Ident,
) -> Result<Value, OutOfMemory>
    ensures { IfOk result (λ v. datum_of v ≡ value_at (R.vars row.now) ident.now) }
{
    copy(alloc, value_of(row, ident, &Value::Null))
}
