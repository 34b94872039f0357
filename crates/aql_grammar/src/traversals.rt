//! The parts of clauses that hold no expression.

ghost use Rattle.std.specs.Prelude.{◌≡◌};
ghost use Rattle.aql_grammar.specs.Clauses as rules;
ghost use Rattle.aql_grammar.specs.Input.{Reads, ReadsAs};
ghost use Rattle.aql_grammar.specs.Names.{traversal_names, depth_pair};
ghost use Rattle.aql_grammar.specs.Reader as reader;
ghost use Rattle.aql_tree.specs.View.{clause_tree};

use crate::ParseFault;
use crate::cursor::Cursor;
use crate::operators::is_number;
use aql_lex::{Keyword, Symbol};
use aql_tree::Clause;
use aql_value::Text;
use std::alloc::Global;

/// The names after FOR: a traversal may have three.
#[derive(Drop)]
pub struct TraversalNames {
    pub vertex: Text,
    pub edge: Option<Text>,
    pub path: Option<Text>,
}

/// The least and the greatest depth of a traversal.
#[derive(Clone, Copy)]
pub struct Depth {
    pub least: u32,
    pub greatest: u32,
}

// A number of depth above the greatest of 32 bits counts as that.
fn depth_number(number: u64) -> u32
    ensures { result ≡ rules.depth_number number }
{
    number.min(4294967295) as u32
}

impl<'a> Cursor<'a> {
    /// One to three names.
    #[tactic(auto, unfolding(crate::specs::Reader::traversal_names))]
    pub fn traversal_names(&mut self, alloc: Global) -> Result<TraversalNames, ParseFault>
        ensures { ReadsAs traversal_names (reader.traversal_names self.old) result self.new }
    {
        let vertex = self.name(alloc)?;
        let mut edge = None;
        let mut path = None;
        if self.eat(Symbol::Comma) {
            edge = Some(self.name(alloc)?);
            if self.eat(Symbol::Comma) {
                path = Some(self.name(alloc)?);
            }
        }
        Ok(TraversalNames { vertex, edge, path })
    }

    /// The depth of a traversal, 1 where none is written.
    #[tactic(auto, unfolding(crate::specs::Reader::traversal_depth))]
    pub fn traversal_depth(&mut self) -> Result<Depth, ParseFault>
        ensures { ReadsAs depth_pair (reader.traversal_depth self.old) result self.new }
    {
        if !is_number(self.peek()) {
            return Ok(Depth {
                least: 1,
                greatest: 1,
            });
        }
        let least = depth_number(self.natural()?);
        let greatest = if self.eat(Symbol::Range) {
            depth_number(self.natural()?)
        } else {
            least
        };
        Ok(Depth { least, greatest })
    }

    /// After LIMIT.
    #[tactic(auto, unfolding(crate::specs::Reader::limit))]
    pub fn limit(&mut self) -> Result<Clause, ParseFault>
        ensures { ReadsAs clause_tree (reader.limit self.old) result self.new }
    {
        let first = self.natural()?;
        if self.eat(Symbol::Comma) {
            let count = self.natural()?;
            Ok(Clause::Limit {
                offset: first,
                count,
            })
        } else {
            Ok(Clause::Limit {
                offset: 0,
                count: first,
            })
        }
    }

    /// After WITH: the name of COUNT INTO.
    #[tactic(auto, unfolding(crate::specs::Reader::count_name))]
    pub fn count_name(&mut self, alloc: Global) -> Result<Text, ParseFault>
        ensures { Reads (reader.count_name self.old) result self.new }
    {
        self.expect_word("COUNT")?;
        self.expect_keyword(Keyword::Into)?;
        self.name(alloc)
    }
}
