//! Values of AQL: their types, their order, their JSON text and the conversions between kinds.
#![tactic(auto)]

mod as_text;
mod attributes;
mod convert;
mod copying;
mod hashing;
mod keys;
mod lists;
mod memory;
mod operators;
mod order;
mod reading;
mod short_texts;
mod texts;
mod tokens;
mod values;
mod writing;

pub use as_text::to_text;
pub use convert::{to_number, truthy};
pub use copying::copy;
pub use hashing::{copy_attribute, document_hash, fnv64, shard_hash};
pub use lists::{CollNo, CollNos, DocNo, Names, Seq, Vars};
pub use memory::OutOfMemory;
pub use operators::{BinOp, UnaryOp};
pub use order::{cmp, order_is_total};
pub use reading::{JsonFault, LineReader, from_json_line, text_is_read_back};
pub use texts::Text;
pub use values::{Items, Member, Members, Value, recall_well_formed};
pub use writing::write_json;
