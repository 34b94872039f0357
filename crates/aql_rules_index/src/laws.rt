//! Laws of the optimiser's rules on indexes (Indexing). Each function's contract is a law, and its
//! body is empty.

ghost use Rattle.aql_rules_index.specs.Theorems.{ItemsHoldAsTheySay, BoundsAreImplied, BoundsImply};
ghost use Rattle.aql_rules_index.specs.Theorems.{IndexNarrows, ConditionMayBeReplaced, FilterMayGo};
ghost use Rattle.aql_rules_index.specs.Theorems.{UseIndexesRefines, RemoveFilterCoveredByIndexRefines};
ghost use Rattle.aql_rules_index.specs.Theorems.{OrderedIndexIsSorted};

/// An item that fits holds of a document beside a row as it says.
pub fn items_hold_as_they_say()
    ensures { ItemsHoldAsTheySay }
{}

/// Where all items hold, a document is in the bounds that they give to an index.
pub fn bounds_are_implied()
    ensures { BoundsAreImplied }
{}

/// An item that is one of the bounds holds where a document is in them.
pub fn bounds_imply()
    ensures { BoundsImply }
{}

/// Under a Filter whose condition holds only in its bounds an Index gives what an
/// EnumerateCollection may give.
pub fn index_narrows()
    ensures { IndexNarrows }
{}

/// Over an Index one condition may stand for another that holds alike in its bounds; one that holds
/// in all of them may go with its Filter.
pub fn items_may_go()
    ensures some { ConditionMayBeReplaced }
    ensures all { FilterMayGo }
{}

/// use-indexes: under a Filter any Index, with the bounds that the condition's items give to it,
/// gives what an EnumerateCollection may give.
pub fn use_indexes_refines()
    ensures { UseIndexesRefines }
{}

/// remove-filter-covered-by-index: items that are bounds of the Index may go.
pub fn remove_filter_covered_by_index_refines()
    ensures { RemoveFilterCoveredByIndexRefines }
{}

/// use-index-for-sort: what an ordered Index gives of one row, the Index may give in any order too,
/// and a Sort by the first attributes of the index may give of that.
pub fn ordered_index_is_sorted()
    ensures { OrderedIndexIsSorted }
{}
