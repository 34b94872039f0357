//! The visible names and their numbers.

ghost use Rattle.std.specs.Prelude.{◌≡◌, [], ◌∷◌, ◌++◌, suc, length, reverse, IfOk, OnOk};
ghost use Rattle.aql_scope.specs.Numbering.{number_of, idents, text_of};
ghost use Rattle.aql_tree.specs.declared.syntax.Ident.TheVariants.{Num};
ghost use Rattle.aql_scope.specs.Faults.{is_among, inline};
ghost use Rattle.aql_scope.specs.Contexts.{context_of, context_within};
ghost use Rattle.aql_meaning.specs.Groups.{names_of};

use crate::Made;
use aql_doc::Catalog;
use aql_meaning::same_variable;
use aql_tree::{Ident, copy_ident};
use aql_value::{Names, Text};
use std::alloc::Global;
use std::marker::Model;
use std::mem;

/// Names with their numbers. Contracts see the latest first.
pub struct NameList {
    items: Vec<(Ident, u32)>,
}

impl Drop for NameList {
    fn drop(self) {
        let NameList { items: _ } = self;
    }
}

impl Model for NameList {
    ghost use Rattle.aql_scope.specs.Numbering.{Numbering};

    ghost Value = { Numbering };

    ghost use Rattle.std.specs.Prelude.{reverse};

    ghost view = { λ l. reverse l.items.items };
}

/// The names that are visible: those of the query at hand, and those of the queries around it.
pub struct Scope {
    pub own: NameList,
    pub outer: NameList,
}

impl Drop for Scope {
    fn drop(self) {
        let Scope { own: _, outer: _ } = self;
    }
}

/// Where a part stands: the collections, the visible names, and whether a subquery may stand there.
#[derive(Clone, Copy)]
pub struct At<'a> {
    pub alloc: Global,
    pub catalog: &'a Catalog,
    pub scope: &'a Scope,
    pub lifts: bool,
}

/// How a variable is written; nothing for a number.
pub fn spelling(alloc: Global, ident: &Ident) -> Made<Text>
    ensures { IfOk result (λ t. t ≡ text_of ident.now) }
{
    match ident {
        Ident::Name(name) => name.copy(alloc),
        Ident::Num(_) => Text::new(alloc, ""),
    }
}

// The number of a name, the last of those that are the same.
fn number_in(entries: &[(Ident, u32)], ident: &Ident) -> Option<u32>
    ensures { result ≡ number_of (reverse entries.now) ident.now }
{
    let mut found = None;
    for entry in entries {
        if same_variable(&entry.0, ident) {
            found = Some(entry.1);
        }
    }
    found
}

// The names as they are written.
fn names_in(alloc: Global, entries: &[(Ident, u32)]) -> Made<Names>
    ensures { IfOk result (λ ns. ns ≡ names_of (idents entries.now)) }
{
    let mut all = Names::new(alloc);
    for entry in entries {
        if let Ident::Name(name) = &entry.0 {
            all.push(name.copy(alloc)?)?;
        }
    }
    Ok(all)
}

fn push_all(alloc: Global, items: &mut Vec<(Ident, u32)>, entries: &[(Ident, u32)]) -> Made<()>
    ensures { OnOk result (items.new.items ≡ items.old.items ++ entries.now) }
{
    for entry in entries {
        items.push((copy_ident(alloc, &entry.0)?, entry.1))?;
    }
    Ok(())
}

impl NameList {
    pub fn new(alloc: Global) -> NameList
        ensures { result ≡ [] }
    {
        NameList {
            items: Vec::new(alloc),
        }
    }

    /// Puts a copy of a name before these.
    pub fn enter(&mut self, alloc: Global, ident: &Ident, number: u32) -> Made<()>
        ensures { OnOk result (self.new ≡ (ident.now, number) ∷ self.old) }
    {
        self.items.push((copy_ident(alloc, ident)?, number))?;
        Ok(())
    }

    /// Gives a variable this number, and puts its name before these.
    pub fn number(&mut self, ident: &mut Ident, number: u32) -> Made<()>
        ensures ident { ident.new ≡ Num number }
        ensures names { OnOk result (self.new ≡ (ident.old, number) ∷ self.old) }
    {
        let name = mem::replace(ident, Ident::Num(number));
        self.items.push((name, number))?;
        Ok(())
    }

    /// The number of a name, the latest of those that are the same.
    pub fn find(&self, ident: &Ident) -> Option<u32>
        ensures { result ≡ number_of self.now ident.now }
    {
        number_in(self.items.as_slice(), ident)
    }

    /// Whether the name is one of these.
    #[tactic(auto, using(crate::proofs::Words::has_number))]
    pub fn has(&self, ident: &Ident) -> bool
        ensures { result ≡ is_among (idents self.now) ident.now }
    {
        self.find(ident).is_some()
    }

    /// The names as they are written, the latest last.
    #[tactic(auto, using(crate::proofs::Words::idents_turned))]
    pub fn names(&self, alloc: Global) -> Made<Names>
        ensures { IfOk result (λ ns. ns ≡ names_of (reverse (idents self.now))) }
    {
        names_in(alloc, self.items.as_slice())
    }

    pub fn copy(&self, alloc: Global) -> Made<NameList>
        ensures { IfOk result (λ l. l ≡ self.now) }
    {
        let mut all = NameList::new(alloc);
        all.add_all(alloc, self)?;
        Ok(all)
    }

    /// Puts copies of other names before these.
    pub fn add_all(&mut self, alloc: Global, others: &NameList) -> Made<()>
        ensures { OnOk result (self.new ≡ others.now ++ self.old) }
    {
        push_all(alloc, &mut self.items, others.items.as_slice())
    }
}

impl Scope {
    /// No names are visible.
    pub fn nothing(alloc: Global) -> Scope
        ensures own { result.own ≡ [] }
        ensures outer { result.outer ≡ [] }
    {
        Scope {
            own: NameList::new(alloc),
            outer: NameList::new(alloc),
        }
    }

    /// The names at the opening of a subquery.
    pub fn subquery(&self, alloc: Global) -> Made<Scope>
        ensures { IfOk result (λ s. (s.own ≡ []) × (s.outer ≡ self.now.own ++ self.now.outer)) }
    {
        let mut outer = self.outer.copy(alloc)?;
        outer.add_all(alloc, &self.own)?;
        Ok(Scope {
            own: NameList::new(alloc),
            outer,
        })
    }

    pub fn copy(&self, alloc: Global) -> Made<Scope>
        ensures { IfOk result (λ s. (s.own ≡ self.now.own) × (s.outer ≡ self.now.outer)) }
    {
        Ok(Scope {
            own: self.own.copy(alloc)?,
            outer: self.outer.copy(alloc)?,
        })
    }

    #[tactic(auto, using(crate::proofs::Words::number_append))]
    pub fn find(&self, ident: &Ident) -> Option<u32>
        ensures { result ≡ number_of (self.now.own ++ self.now.outer) ident.now }
    {
        self.own.find(ident).or(self.outer.find(ident))
    }

    pub fn sees(&self, ident: &Ident) -> bool
        ensures { result ≡ is_among (idents self.now.own ++ idents self.now.outer) ident.now }
    {
        self.own.has(ident) || self.outer.has(ident)
    }
}

impl<'a> At<'a> {
    /// Within an inline expression, PRUNE or OPTIONS, where no subquery may stand.
    pub fn inline(&self) -> At<'a>
        ensures { context_of result ≡ inline (context_of self.now) }
    {
        At {
            lifts: false,
            ..*self
        }
    }

    /// Among the names of a scope, where a subquery may stand.
    pub fn within<'b>(&self, scope: &'b Scope) -> At<'b>
    where
        'a: 'b,
        ensures { context_of result ≡ context_within self.now scope.now }
    {
        At {
            alloc: self.alloc,
            catalog: self.catalog,
            scope,
            lifts: true,
        }
    }
}
