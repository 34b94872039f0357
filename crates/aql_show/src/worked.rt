//! Worked texts: the function's contract is a table of them, computed from the definitions.

ghost use Rattle.aql_show.specs.Worked.{WorkedTexts};

/// The texts of expressions, of each node with each of its options, and of whole plans.
pub fn worked_texts()
    ensures { WorkedTexts }
{}
