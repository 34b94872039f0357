//! Rows with one variable more, as expressions see them.

ghost use Rattle.std.specs.Prelude.{◌≡◌, ℕ, List, None};
ghost use Rattle.aql_value.specs.View.{datum_of};
ghost use Rattle.aql_tree.specs.declared.syntax.Ident.TheVariants.{Num};
ghost use Rattle.aql_meaning.specs.Row.{bind};
ghost use Rattle.aql_block.specs.Rows.{row_of};

use aql_block::RowRef;
use aql_expr::RowView;
use aql_value::Value;

// A row of a block with one more variable.
#[derive(Drop)]
pub(crate) struct LongerRow<'a> {
    pub(crate) row: &'a RowRef<'a>,
    pub(crate) var: u32,
    pub(crate) value: &'a Value,
}

impl RowView for LongerRow<'_> {
    ghost use Rattle.aql_block.specs.laws.BlockRows.{no_names};

    ghost vars = { λ r. bind (Num r.var) (row_of r.row.now) (datum_of r.value.now) };

    fn value(&self, var: u32) -> Option<&Value> {
        if var == self.var {
            return Some(self.value);
        }
        self.row.value(var)
    }

    ghost numbered = { λ r name. no_names r.row.now name };
}
