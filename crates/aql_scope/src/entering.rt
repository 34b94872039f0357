//! The names that are visible after a clause. Only the names count here: a fault tells no number.

ghost use Rattle.std.specs.Prelude.{◌≡◌, map, option_to_list, OnOk};
ghost use Rattle.aql_tree.specs.View.{aggregates, clause_tree, let_part, aggregate_part};
ghost use Rattle.aql_tree.specs.View.{traversal_part, traversal_clause, collect_part, collect_clause};
ghost use Rattle.aql_meaning.specs.Visible.{onto, vars_after, aggregate_vars};
ghost use Rattle.aql_scope.specs.Numbering.{idents};

use crate::Made;
use crate::names::{NameList, Scope};
use aql_tree::{AggregateItem, Clause, Collect, Ident, Let, Traversal};
use std::alloc::Global;

impl NameList {
    /// Puts the variables of criteria before these names.
    pub fn enter_criteria(&mut self, alloc: Global, groups: &[Let]) -> Made<()>
        ensures { OnOk result (idents self.new
            ≡ onto (map (λ l. l.0) (map let_part groups.now)) (idents self.old)) }
    {
        for group in groups {
            self.enter(alloc, &group.var, 0)?;
        }
        Ok(())
    }

    /// Puts the variables of aggregates before these names.
    pub fn enter_aggregates(&mut self, alloc: Global, all: &[AggregateItem]) -> Made<()>
        ensures { OnOk result (idents self.new
            ≡ onto (aggregate_vars (aggregates (map aggregate_part all.now))) (idents self.old)) }
    {
        for item in all {
            self.enter(alloc, &item.var, 0)?;
        }
        Ok(())
    }

    /// Puts a variable that may be there before these names.
    pub fn enter_maybe(&mut self, alloc: Global, ident: &Option<Ident>) -> Made<()>
        ensures { OnOk result
            (idents self.new ≡ onto (option_to_list ident.now) (idents self.old)) }
    {
        if let Some(ident) = ident {
            self.enter(alloc, ident, 0)?;
        }
        Ok(())
    }
}

impl Scope {
    /// Makes the variables of a clause visible; COLLECT leaves only its own.
    pub fn enter_clause(&mut self, alloc: Global, clause: &Clause) -> Made<()>
        ensures own { OnOk result
            (idents self.new.own ≡ vars_after (clause_tree clause.now) (idents self.old.own)) }
        ensures outer { self.new.outer ≡ self.old.outer }
    {
        match clause {
            Clause::For { var, .. } | Clause::ForDocs { var, .. } | Clause::Let { var, .. } => {
                self.own.enter(alloc, var, 0)
            }
            Clause::Traversal(traversal) => self.enter_traversal(alloc, traversal),
            Clause::Filter(_) | Clause::Sort(_) | Clause::Limit { .. } => Ok(()),
            Clause::Collect(collect) => self.enter_collect(alloc, collect),
        }
    }

    /// Makes the variables of a traversal visible.
    pub fn enter_traversal(&mut self, alloc: Global, traversal: &Traversal) -> Made<()>
        ensures own { OnOk result (idents self.new.own
            ≡ vars_after (traversal_clause (traversal_part traversal.now)) (idents self.old.own)) }
        ensures outer { self.new.outer ≡ self.old.outer }
    {
        self.own.enter(alloc, &traversal.vertex, 0)?;
        self.own.enter_maybe(alloc, &traversal.edge)?;
        self.own.enter_maybe(alloc, &traversal.path)
    }

    fn enter_collect(&mut self, alloc: Global, collect: &Collect) -> Made<()>
        ensures own { OnOk result (idents self.new.own
            ≡ vars_after (collect_clause (collect_part collect.now)) (idents self.old.own)) }
        ensures outer { self.new.outer ≡ self.old.outer }
    {
        let mut own = NameList::new(alloc);
        own.enter_criteria(alloc, collect.groups.as_slice())?;
        own.enter_aggregates(alloc, collect.aggregates.as_slice())?;
        if let Some(into) = &collect.into {
            own.enter(alloc, &into.var, 0)?;
        }
        self.own = own;
        Ok(())
    }
}
