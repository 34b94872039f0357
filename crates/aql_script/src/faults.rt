use aql_value::OutOfMemory;

/// Why a script was not loaded: the first fault of the script, or what hindered the reading.
/// `fault_text` gives its text.
#[derive(Clone, Copy, PartialEq, Eq, Drop)]
pub enum LoadFault {
    /// A read failed.
    Read,
    /// A limit is exceeded.
    Limit(LimitKind),
    /// A line has a fault.
    Line {
        /// The line, counted from 1.
        line: u32,
        /// What is wrong with it.
        kind: LineKind,
    },
    /// Memory ran out.
    Memory,
}

/// Which limit is exceeded. Lines count from 1.
#[derive(Clone, Copy, PartialEq, Eq, Drop)]
pub enum LimitKind {
    /// The script has more than 67,108,864 bytes.
    ScriptBytes,
    /// A line before the query has more than 1,048,576 bytes, its line end not counted.
    LineBytes {
        /// The line.
        line: u32,
    },
    /// A 65th collection is declared.
    Collections {
        /// The line.
        line: u32,
    },
    /// A 17th sorted index of a collection is declared.
    Indexes {
        /// The line.
        line: u32,
    },
    /// A collection is declared with more than 32 shards.
    Shards {
        /// The line.
        line: u32,
    },
    /// The document is the 200,001st.
    Documents {
        /// The line.
        line: u32,
    },
    /// The document nests deeper than 64.
    JsonDepth {
        /// The line.
        line: u32,
    },
    /// The query has more than 65,536 bytes. `load` does not judge this.
    QueryBytes,
    /// The query's tokens nest deeper than 64. `load` does not judge this.
    Nesting,
    /// The query has more than 256 clause words and `=`. `load` does not judge this.
    Clauses,
    /// A traversal of the query goes deeper than 32. `load` does not judge this.
    TraversalDepth,
}

/// What is wrong with a line of a script.
#[derive(Clone, Copy, PartialEq, Eq, Drop)]
pub enum LineKind {
    /// The line is no directive of a known form.
    BadDirective,
    /// A collection of this name is declared already.
    DeclaredTwice,
    /// An index is declared for a collection that is not declared.
    UnknownCollection,
    /// A document stands before every declaration.
    NoCollection,
    /// `serde_json` reads no value from the line.
    NotJson,
    /// A number of the document is no whole number from -2^63 to 2^63 - 1, is written with an
    /// exponent, or is `-0`.
    NotWhole,
    /// The line writes no object.
    NotObject,
    /// The `_key` is no allowed text, or both `_key` and `_id` are missing.
    BadKey,
    /// The `_id` is not the collection's name, `/` and the key.
    IdMismatch,
    /// `_from` or `_to` of an edge is missing or no text with one `/` between two sides.
    BadEdge,
    /// The collection has a document with this key already.
    DuplicateKey,
    /// The lines end, and none of them is `%query`.
    NoQuery,
    /// The text of the query is not in UTF-8. The line is that of `%query`.
    QueryNotUtf8,
}

impl From<OutOfMemory> for LoadFault {
    ghost use Rattle.std.specs.Prelude.{◌≡◌};
    ghost use Rattle.aql_script.specs.declared.faults.LoadFault.TheVariants.{Memory};

    ghost from_gives = { λ _ f. f ≡ Memory };

    fn from(_: OutOfMemory) -> LoadFault {
        LoadFault::Memory
    }
}
