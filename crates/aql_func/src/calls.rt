ghost use Rattle.std.specs.Prelude.{◌≡◌, IfOk};
ghost use Rattle.aql_value.specs.View.{datum_of};
ghost use Rattle.aql_func.specs.Functions as spec;

use crate::{FuncName, aggregates, arrays, objects, sets, texts, values};
use aql_value::{Items, OutOfMemory, Value};
use std::alloc::Global;

/// The value of a function of these arguments (the chapters of the AQL manual on functions).
pub fn call(alloc: Global, f: FuncName, args: &Items) -> Result<Value, OutOfMemory>
    ensures { IfOk result (λ v. datum_of v ≡ spec.call f args.now) }
{
    match f {
        FuncName::IsNull => Ok(values::is_null(args)),
        FuncName::IsBool => Ok(values::is_bool(args)),
        FuncName::IsNumber => Ok(values::is_number(args)),
        FuncName::IsString => Ok(values::is_string(args)),
        FuncName::IsArray => Ok(values::is_array(args)),
        FuncName::IsObject => Ok(values::is_object(args)),
        FuncName::Typename => values::typename(alloc, args),
        FuncName::ToBool => Ok(values::bool_of(args)),
        FuncName::ToNumber => Ok(values::number_of(args)),
        FuncName::ToString => values::string_of(alloc, args),
        FuncName::ToArray => values::array_of(alloc, args),
        FuncName::NotNull => values::not_null(alloc, args),
        FuncName::Abs => Ok(values::abs(args)),
        FuncName::Min => aggregates::min(alloc, args),
        FuncName::Max => aggregates::max(alloc, args),
        FuncName::Sum => Ok(aggregates::sum(args)),
        FuncName::Range => values::range_of(alloc, args),
        FuncName::Concat => texts::concat(alloc, args),
        FuncName::ConcatSeparator => texts::concat_separator(alloc, args),
        FuncName::Length => values::length(alloc, args),
        FuncName::Count => values::count(alloc, args),
        FuncName::Substring => texts::substring(alloc, args),
        FuncName::Left => texts::left(alloc, args),
        FuncName::Right => texts::right(alloc, args),
        FuncName::Contains => texts::contains(alloc, args),
        FuncName::StartsWith => texts::starts_with(alloc, args),
        FuncName::Split => texts::split(alloc, args),
        FuncName::Reverse => values::reverse(alloc, args),
        FuncName::First => arrays::first(alloc, args),
        FuncName::Last => arrays::last(alloc, args),
        FuncName::Nth => arrays::nth(alloc, args),
        FuncName::Position => Ok(arrays::position(args)),
        FuncName::Push => arrays::push(alloc, args),
        FuncName::Append => arrays::append(alloc, args),
        FuncName::Unique => arrays::unique(alloc, args),
        FuncName::Sorted => arrays::sorted_values(alloc, args),
        FuncName::SortedUnique => arrays::sorted_unique(alloc, args),
        FuncName::CountDistinct => arrays::count_distinct(alloc, args),
        FuncName::Flatten => arrays::flatten(alloc, args),
        FuncName::Slice => arrays::slice_of(alloc, args),
        FuncName::Intersection => sets::intersection(alloc, args),
        FuncName::Minus => sets::minus(alloc, args),
        FuncName::Union => sets::union(alloc, args),
        FuncName::UnionDistinct => sets::union_distinct(alloc, args),
        FuncName::Attributes => objects::attributes(alloc, args),
        FuncName::Values => objects::values(alloc, args),
        FuncName::Has => objects::has(alloc, args),
        FuncName::Merge => objects::merge(alloc, args),
        FuncName::Unset => objects::unset(alloc, args),
        FuncName::Keep => objects::keep(alloc, args),
        FuncName::ParseIdentifier => objects::parse_identifier(alloc, args),
    }
}
