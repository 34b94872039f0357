ghost use Rattle.std.specs.Prelude.{◌≡◌, []};
ghost use Rattle.aql_value.specs.View.{datum_of, datums_in};
ghost use Rattle.aql_value.specs.Fields.{fields_in, members_in};
ghost use Rattle.aql_value.specs.WellFormed.{WellFormed};

use crate::texts::recall_utf8;
use crate::{OutOfMemory, Text};
use std::alloc::Global;
use std::marker::Model;
use std::rc::Rc;

/// A value of AQL (AQL fundamentals, Data types): null, a bool, a whole number of 64 bits with its
/// sign, a text, an array or an object. Contracts see it as a datum, by `datum_of`.
#[cycle(value)]
pub enum Value {
    Null,
    Bool(bool),
    Num(i64),
    Text(Text),
    List(Items),
    Object(Members),
}

/// The elements of an array, in order. Contracts see the list of their datums.
#[cycle(value)]
pub struct Items {
    pub(crate) items: Vec<Value>,
}

impl Model for Items {
    ghost use Rattle.std.specs.Prelude.{List};
    ghost use Rattle.aql_value.specs.Datum.{Datum, coded_datums};

    ghost Value = { List Datum };

    ghost coded = { coded_datums };

    ghost use Rattle.aql_value.specs.View.{datums_in};

    ghost view = { λ a. datums_in a.items.items };

    ghost use Rattle.aql_value.specs.Sizes.{datums_size};
    ghost use Rattle.aql_value.specs.Datum.{array_of};
    ghost use Rattle.aql_value.specs.WellFormed.{ItemsWellFormed};

    ghost invariant = { λ a. ItemsWellFormed (array_of (datums_in a.items.items)) };

    ghost size = { datums_size };

    ghost use Rattle.aql_value.specs.laws.Falls.{items_fall};

    ghost size_decreases = { λ a h. items_fall a.items.items };
}

/// One attribute of an object.
#[cycle(value)]
pub struct Member {
    pub name: Text,
    pub value: Value,
}

/// The attributes of an object, in ascending order of the bytes of their names, each name once.
/// Contracts see the list of the names with the datums of their values.
#[cycle(value)]
pub struct Members {
    /// shared with its copies; none where there is no attribute
    pub(crate) entries: Option<Rc<Vec<Member>>>,
}

impl Model for Members {
    ghost use Rattle.std.specs.Prelude.{List, ℕ};
    ghost use Rattle.aql_value.specs.Datum.{Datum, coded_fields};

    ghost Value = { List (List ℕ × Datum) };

    ghost coded = { coded_fields };

    ghost use Rattle.aql_value.specs.Fields.{fields_in, members_in};

    ghost view = { λ a. fields_in (members_in a.entries) };

    ghost use Rattle.aql_value.specs.Sizes.{fields_size};
    ghost use Rattle.aql_value.specs.Datum.{object_of};
    ghost use Rattle.aql_value.specs.WellFormed.{FieldsWellFormed};

    ghost invariant = { λ a. FieldsWellFormed (object_of (fields_in (members_in a.entries))) };

    ghost size = { fields_size };

    ghost use Rattle.aql_value.specs.laws.Falls.{entries_fall};

    ghost size_decreases = { λ a h. entries_fall a };
}

impl Value {
    ghost use Rattle.aql_value.specs.Contents.{items_of, members_of};

    /// The elements of an array; `None` exactly where the value is no array.
    #[tactic(auto, using(crate::proofs::Listed::items_listed))]
    pub fn into_items(self) -> Option<Items>
        ensures { result ≡ items_of (datum_of self) }
    {
        match self {
            Value::List(items) => Some(items),
            Value::Null | Value::Bool(_) | Value::Num(_) | Value::Text(_) | Value::Object(_) =>
                None,
        }
    }

    /// The attributes of an object; `None` exactly where the value is no object.
    #[tactic(auto, using(crate::proofs::Listed::members_listed))]
    pub fn into_members(self) -> Option<Members>
        ensures { result ≡ members_of (datum_of self) }
    {
        match self {
            Value::Object(members) => Some(members),
            Value::Null | Value::Bool(_) | Value::Num(_) | Value::Text(_) | Value::List(_) => None,
        }
    }
}

impl Items {
    ghost use Rattle.std.specs.Prelude.{◌++◌, ◌∷◌, length, option_map, slice_get, IfOk, OnOk, OnErr};

    /// The empty array.
    pub fn new(alloc: Global) -> Items
        ensures { result ≡ [] }
    {
        Items {
            items: Vec::new(alloc),
        }
    }

    /// The empty array, with room for so many elements.
    pub fn with_room(alloc: Global, room: usize) -> Result<Items, OutOfMemory>
        ensures { IfOk result (λ items. items ≡ []) }
    {
        let items = Vec::with_capacity(alloc, room)?;
        Ok(Items { items })
    }

    /// How many elements the array has.
    pub fn len(&self) -> usize
        ensures { result ≡ length self.now }
    {
        self.items.len()
    }

    /// The element at a place, counted from 0; `None` exactly where the array has no such place.
    pub fn get(&self, at: usize) -> Option<&Value>
        ensures { option_map (λ v. datum_of v.now) result ≡ slice_get self.now at }
    {
        self.items.get(at)
    }

    /// The elements, borrowed.
    pub fn as_slice(&self) -> &[Value]
        ensures { datums_in result.now ≡ self.now }
    {
        self.items.as_slice()
    }

    /// Makes room for so many more elements at least.
    pub fn reserve(&mut self, more: usize) -> Result<(), OutOfMemory>
        ensures { self.new ≡ self.old }
    {
        self.items.reserve(more)?;
        Ok(())
    }

    // Gives back the room for elements that there are not.
    pub(crate) fn shrink(&mut self)
        ensures { self.new ≡ self.old }
    {
        self.items.shrink_to_fit();
    }

    /// Appends an element; where memory runs out the array stays as it was. The first one takes room
    /// for itself alone.
    pub fn push(&mut self, item: Value) -> Result<(), OutOfMemory>
        ensures ok { OnOk result (self.new ≡ self.old ++ datum_of item ∷ []) }
        ensures err { OnErr result (self.new ≡ self.old) }
    {
        recall_well_formed(&item);
        if self.items.is_empty() {
            self.items.reserve_exact(1)?;
        }
        self.items.push(item)?;
        Ok(())
    }
}

impl Members {
    /// The attributes in the order of their names, borrowed.
    pub fn as_slice(&self) -> &[Member]
        ensures { fields_in result.now ≡ self.now }
    {
        entries_in(&self.entries)
    }
}

/// The attributes that are kept.
pub(crate) fn entries_in(entries: &Option<Rc<Vec<Member>>>) -> &[Member]
    ensures { result.now ≡ members_in entries.now }
{
    match entries {
        Some(entries) => entries.as_slice(),
        None => &[],
    }
}

/// Recalls, for a proof, what holds of every value at every depth: its numbers have 64 bits, its
/// texts and names are in UTF-8, and the names of each object ascend.
pub fn recall_well_formed(value: &Value)
    ensures { WellFormed (datum_of value.now) }
{
    match value {
        Value::Num(number) => {
            let _number = *number;
        }
        Value::Text(text) => recall_utf8(text),
        Value::List(list) => {
            let _items = &list.items;
        }
        Value::Object(members) => {
            let _entries = &members.entries;
        }
        _ => {}
    }
}

impl Drop for Value {
    #[cycle(drop)]
    fn drop(self) {
        match self {
            Value::Null
            | Value::Bool(_)
            | Value::Num(_)
            | Value::Text(_)
            | Value::List(_)
            | Value::Object(_) => {}
        }
    }
}

impl Drop for Items {
    #[cycle(drop)]
    fn drop(self) {
        let Items { items: _ } = self;
    }
}

impl Drop for Member {
    #[cycle(drop)]
    fn drop(self) {
        let Member { name: _, value: _ } = self;
    }
}

impl Drop for Members {
    #[cycle(drop)]
    fn drop(self) {
        let Members { entries: _ } = self;
    }
}
