use aql_value::{Names, Seq, Text};

/// Lists of attributes, one for each sorted index.
pub type IndexLists = Seq<Names>;

/// How a collection was declared.
pub struct CollInfo {
    /// The collection's name.
    pub name: Text,
    /// Whether it is an edge collection.
    pub edge: bool,
    /// How many shards it has: 1 to 32.
    pub shards: u32,
    /// The attributes whose values choose a document's shard: one to eight.
    pub keys: Names,
    /// The attributes of each sorted index, as declared: at most 16 indexes, each over one to
    /// eight attributes, and no two alike.
    pub indexes: IndexLists,
}

impl Drop for CollInfo {
    fn drop(self) {
        let CollInfo {
            name: _,
            edge: _,
            shards: _,
            keys: _,
            indexes: _,
        } = self;
    }
}
