ghost use Rattle.std.specs.Prelude.{◌&&◌, ◌≡◌, nat_le};
ghost use Rattle.aql_func.specs.Names as spec;
ghost use Rattle.aql_func.specs.Names.{is_within, signature};
ghost use Rattle.aql_func.specs.inner.Signatures.{signature_of};

use crate::names::FuncName;

/// How many arguments a function takes: at least `least`, and at most `most` where that is given.
#[derive(Clone, Copy)]
pub struct Arity {
    pub least: u32,
    pub most: Option<u32>,
}

#[derive(Clone, Copy)]
pub(crate) struct Signature {
    pub(crate) name: &'static str,
    pub(crate) arity: Arity,
}

fn exactly(count: u32, name: &'static str) -> Signature
    ensures { signature_of result ≡ spec.exactly count name.now }
{
    Signature {
        name,
        arity: Arity {
            least: count,
            most: Some(count),
        },
    }
}

fn between(least: u32, most: u32, name: &'static str) -> Signature
    ensures { signature_of result ≡ spec.between least most name.now }
{
    Signature {
        name,
        arity: Arity {
            least,
            most: Some(most),
        },
    }
}

fn at_least(least: u32, name: &'static str) -> Signature
    ensures { signature_of result ≡ spec.at_least least name.now }
{
    Signature {
        name,
        arity: Arity { least, most: None },
    }
}

pub(crate) fn table(f: FuncName) -> Signature
    ensures { signature_of result ≡ signature f }
{
    match f {
        FuncName::IsNull => exactly(1, "IS_NULL"),
        FuncName::IsBool => exactly(1, "IS_BOOL"),
        FuncName::IsNumber => exactly(1, "IS_NUMBER"),
        FuncName::IsString => exactly(1, "IS_STRING"),
        FuncName::IsArray => exactly(1, "IS_ARRAY"),
        FuncName::IsObject => exactly(1, "IS_OBJECT"),
        FuncName::Typename => exactly(1, "TYPENAME"),
        FuncName::ToBool => exactly(1, "TO_BOOL"),
        FuncName::ToNumber => exactly(1, "TO_NUMBER"),
        FuncName::ToString => exactly(1, "TO_STRING"),
        FuncName::ToArray => exactly(1, "TO_ARRAY"),
        FuncName::NotNull => at_least(1, "NOT_NULL"),
        FuncName::Abs => exactly(1, "ABS"),
        FuncName::Min => exactly(1, "MIN"),
        FuncName::Max => exactly(1, "MAX"),
        FuncName::Sum => exactly(1, "SUM"),
        FuncName::Range => exactly(2, "RANGE"),
        FuncName::Concat => at_least(1, "CONCAT"),
        FuncName::ConcatSeparator => at_least(2, "CONCAT_SEPARATOR"),
        FuncName::Length => exactly(1, "LENGTH"),
        FuncName::Count => exactly(1, "COUNT"),
        FuncName::Substring => between(2, 3, "SUBSTRING"),
        FuncName::Left => exactly(2, "LEFT"),
        FuncName::Right => exactly(2, "RIGHT"),
        FuncName::Contains => exactly(2, "CONTAINS"),
        FuncName::StartsWith => exactly(2, "STARTS_WITH"),
        FuncName::Split => exactly(2, "SPLIT"),
        FuncName::Reverse => exactly(1, "REVERSE"),
        FuncName::First => exactly(1, "FIRST"),
        FuncName::Last => exactly(1, "LAST"),
        FuncName::Nth => exactly(2, "NTH"),
        FuncName::Position => exactly(2, "POSITION"),
        FuncName::Push => between(2, 3, "PUSH"),
        FuncName::Append => between(2, 3, "APPEND"),
        FuncName::Unique => exactly(1, "UNIQUE"),
        FuncName::Sorted => exactly(1, "SORTED"),
        FuncName::SortedUnique => exactly(1, "SORTED_UNIQUE"),
        FuncName::CountDistinct => exactly(1, "COUNT_DISTINCT"),
        FuncName::Flatten => between(1, 2, "FLATTEN"),
        FuncName::Slice => between(2, 3, "SLICE"),
        FuncName::Intersection => at_least(2, "INTERSECTION"),
        FuncName::Minus => at_least(2, "MINUS"),
        FuncName::Union => at_least(2, "UNION"),
        FuncName::UnionDistinct => at_least(2, "UNION_DISTINCT"),
        FuncName::Attributes => exactly(1, "ATTRIBUTES"),
        FuncName::Values => exactly(1, "VALUES"),
        FuncName::Has => exactly(2, "HAS"),
        FuncName::Merge => at_least(1, "MERGE"),
        FuncName::Unset => at_least(2, "UNSET"),
        FuncName::Keep => at_least(2, "KEEP"),
        FuncName::ParseIdentifier => exactly(1, "PARSE_IDENTIFIER"),
    }
}

impl Arity {
    /// Whether a call with this number of arguments is allowed.
    pub fn allows(&self, count: usize) -> bool
        ensures { result ≡ (nat_le self.now.least count && is_within self.now.most count) }
    {
        self.least as usize <= count
            && match self.most {
                None => true,
                Some(most) => count <= most as usize,
            }
    }
}
