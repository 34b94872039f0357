// Variables and attribute paths, whose values a row holds.
ghost use Rattle.std.specs.Prelude.{◌≡◌, IfSome, is_some, map};
ghost use Rattle.aql_value.specs.Datum.{Datum, null};
ghost use Rattle.aql_value.specs.View.{datum_of};
ghost use Rattle.aql_tree.specs.View.{step_part, steps as step_trees, tree};
ghost use Rattle.aql_meaning.specs.Row.{Row};
ghost use Rattle.aql_meaning.specs.Value as spec;
ghost use Rattle.aql_expr.specs.Paths.{are_names, is_path};

use crate::RowView;
use crate::contents::attribute;
use crate::rows::value_of;
use aql_tree::{Expr, Step};
use aql_value::Value;

/// The value of a variable or of an attribute path, borrowed (AQL fundamentals, Attribute access);
/// `None` exactly where the expression has another form. It is the value that `eval` copies. Where
/// there is no such part, `missing` is given, which is null.
pub fn borrow<'a, R: RowView>(expr: &Expr, row: &'a R, missing: &'a Value) -> Option<&'a Value>
    requires { datum_of missing.now ≡ null }
    ensures form { is_some result ≡ is_path (tree expr.now) }
    ensures value { IfSome result (λ v. datum_of v.now
        ≡ spec.value (tree expr.now) null (R.vars row.now)) }
{
    match expr {
        Expr::Var(ident) => Some(value_of(row, ident, missing)),
        Expr::Access { of, steps } => match &**of {
            Expr::Var(ident) => {
                attribute_at(steps.as_slice(), value_of(row, ident, missing), missing)
            }
            _ => None,
        },
        _ => None,
    }
}

// The value that attributes lead to, step by step.
fn attribute_at<'a>(steps: &[Step], from: &'a Value, missing: &'a Value) -> Option<&'a Value>
    requires { datum_of missing.now ≡ null }
    ensures form { is_some result ≡ are_names (step_trees (map step_part steps.now)) }
    ensures value { IfSome result (λ v. (cur : Datum) (row : Row) → datum_of v.now
        ≡ spec.steps_value (step_trees (map step_part steps.now)) cur row (datum_of from.now)) }
{
    let mut value = from;
    for step in steps {
        match step {
            Step::Name(name) => value = attribute(value, name.as_str(), missing),
            Step::At(_) | Step::Each { .. } => return None,
        }
    }
    Some(value)
}
