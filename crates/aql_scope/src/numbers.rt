//! The numbers of variables.

ghost use Rattle.std.specs.Prelude.{◌≡◌, [], ◌∷◌, ◌++◌, suc, codes, IfOk, OnOk};
ghost use Rattle.aql_tree.specs.declared.syntax.Ident.TheVariants.{Num};
ghost use Rattle.aql_scope.specs.Numbering.{text_of};

use crate::Made;
use crate::names::{NameList, spelling};
use aql_tree::{Clauses, Ident};
use aql_value::{Names, OutOfMemory, Text};
use std::alloc::Global;

/// The next number, and the names of all variables that have one, in order.
#[derive(Drop)]
pub struct Numbers {
    pub alloc: Global,
    pub next: u32,
    pub said: Names,
}

/// What is lifted so far: the numbers of variables, and the clauses of the query at hand with the
/// LETs of the subqueries that were taken out.
#[derive(Drop)]
pub struct LiftState {
    pub numbers: Numbers,
    pub lets: Clauses,
}

impl Numbers {
    /// No variable has a number below this one.
    pub fn from(alloc: Global, next: u32) -> Numbers
        ensures next { result.next ≡ next }
        ensures said { result.said ≡ [] }
    {
        Numbers {
            alloc,
            next,
            said: Names::new(alloc),
        }
    }

    /// Takes the next number for a variable of this name. A query whose variables need more numbers
    /// than there are does not fit into memory.
    pub fn take(&mut self, name: Text) -> Made<u32>
        ensures number { IfOk result (λ n. n ≡ self.old.next) }
        ensures next { OnOk result (self.new.next ≡ suc self.old.next) }
        ensures said { OnOk result (self.new.said ≡ self.old.said ++ name ∷ []) }
    {
        let number = self.next;
        let Some(next) = number.checked_add(1) else {
            return Err(OutOfMemory);
        };
        self.said.push(name)?;
        self.next = next;
        Ok(number)
    }

    /// Takes the next number for a variable that is written like this one.
    pub fn declare(&mut self, ident: &Ident) -> Made<u32>
        ensures number { IfOk result (λ n. n ≡ self.old.next) }
        ensures next { OnOk result (self.new.next ≡ suc self.old.next) }
        ensures said { OnOk result (self.new.said ≡ self.old.said ++ text_of ident.now ∷ []) }
    {
        let name = spelling(self.alloc, ident)?;
        self.take(name)
    }

    /// Gives a variable the next number, and puts its name before these names.
    pub fn enter(&mut self, ident: &mut Ident, names: &mut NameList) -> Made<()>
        ensures ident { OnOk result (ident.new ≡ Num self.old.next) }
        ensures next { OnOk result (self.new.next ≡ suc self.old.next) }
        ensures said { OnOk result (self.new.said ≡ self.old.said ++ text_of ident.old ∷ []) }
        ensures names { OnOk result (names.new ≡ (ident.old, self.old.next) ∷ names.old) }
    {
        let number = self.declare(ident)?;
        names.number(ident, number)
    }

    /// Takes the next number for the variable of a subquery that is taken out.
    pub fn subquery(&mut self) -> Made<u32>
        ensures number { IfOk result (λ n. n ≡ self.old.next) }
        ensures next { OnOk result (self.new.next ≡ suc self.old.next) }
        ensures said { OnOk result (self.new.said ≡ self.old.said ++ codes "sub" ∷ []) }
    {
        let name = Text::new(self.alloc, "sub")?;
        self.take(name)
    }
}
