ghost use Rattle.std.specs.Cmp.Lexicographic.{slice_cmp};
ghost use Rattle.std.specs.Ordering.{nat_cmp};
ghost use Rattle.std.specs.Prelude.{◌≡◌};
ghost use Rattle.std.specs.Str.{str_to_ascii_lowercase};
ghost use Rattle.aql_func.specs.Names.{function_named, signature};

use crate::signatures::{Arity, table};
use std::cmp::Ordering;

/// A function of the language (the chapter of the AQL manual on functions).
#[derive(Clone, Copy, Debug, PartialEq, Eq)]
pub enum FuncName {
    IsNull,
    IsBool,
    IsNumber,
    IsString,
    IsArray,
    IsObject,
    Typename,
    ToBool,
    ToNumber,
    ToString,
    ToArray,
    NotNull,
    Abs,
    Min,
    Max,
    Sum,
    Range,
    Concat,
    ConcatSeparator,
    Length,
    Count,
    Substring,
    Left,
    Right,
    Contains,
    StartsWith,
    Split,
    Reverse,
    First,
    Last,
    Nth,
    Position,
    Push,
    Append,
    Unique,
    Sorted,
    SortedUnique,
    CountDistinct,
    Flatten,
    Slice,
    Intersection,
    Minus,
    Union,
    UnionDistinct,
    Attributes,
    Values,
    Has,
    Merge,
    Unset,
    Keep,
    ParseIdentifier,
}

// All functions, in the order of their names.
const FUNCTIONS: [FuncName; 51] = [
    FuncName::Abs,
    FuncName::Append,
    FuncName::Attributes,
    FuncName::Concat,
    FuncName::ConcatSeparator,
    FuncName::Contains,
    FuncName::Count,
    FuncName::CountDistinct,
    FuncName::First,
    FuncName::Flatten,
    FuncName::Has,
    FuncName::Intersection,
    FuncName::IsArray,
    FuncName::IsBool,
    FuncName::IsNull,
    FuncName::IsNumber,
    FuncName::IsObject,
    FuncName::IsString,
    FuncName::Keep,
    FuncName::Last,
    FuncName::Left,
    FuncName::Length,
    FuncName::Max,
    FuncName::Merge,
    FuncName::Min,
    FuncName::Minus,
    FuncName::NotNull,
    FuncName::Nth,
    FuncName::ParseIdentifier,
    FuncName::Position,
    FuncName::Push,
    FuncName::Range,
    FuncName::Reverse,
    FuncName::Right,
    FuncName::Slice,
    FuncName::Sorted,
    FuncName::SortedUnique,
    FuncName::Split,
    FuncName::StartsWith,
    FuncName::Substring,
    FuncName::Sum,
    FuncName::ToArray,
    FuncName::ToBool,
    FuncName::ToNumber,
    FuncName::ToString,
    FuncName::Typename,
    FuncName::Union,
    FuncName::UnionDistinct,
    FuncName::Unique,
    FuncName::Unset,
    FuncName::Values,
];

/// The function of a name, in any letter case of its ASCII letters; `None` exactly where no
/// function has this name.
pub fn lookup(name: &str) -> Option<FuncName>
    ensures { result ≡ function_named name.now }
{
    match FUNCTIONS.binary_search_by(|f| compare_name(*f, name)) {
        Ok(place) => Some(FUNCTIONS[place]),
        Err(_) => None,
    }
}

// How the name of a function compares with a text in any letter case of their ASCII letters.
fn compare_name(f: FuncName, name: &str) -> Ordering
    ensures { result ≡ slice_cmp nat_cmp (str_to_ascii_lowercase (signature f).name)
        (str_to_ascii_lowercase name.now) }
{
    compare(table(f).name, name)
}

// How two texts compare in any letter case of their ASCII letters.
fn compare(a: &str, b: &str) -> Ordering
    ensures { result
        ≡ slice_cmp nat_cmp (str_to_ascii_lowercase a.now) (str_to_ascii_lowercase b.now) }
{
    let b = b.bytes().map(|byte| byte.to_ascii_lowercase());
    a.bytes().map(|byte| byte.to_ascii_lowercase()).cmp(b)
}

/// How many arguments a function takes.
pub fn arity(f: FuncName) -> Arity
    ensures least { result.least ≡ (signature f).least }
    ensures most { result.most ≡ (signature f).most }
{
    table(f).arity
}
