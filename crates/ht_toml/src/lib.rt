//! The shapes that our TOML texts are made of: a document, a table of known keys, the value at a
//! key, the entries of an array, the names of entries.
#![tactic(auto)]

mod documents;
mod entries;
mod keys;
mod names;
mod rows;
mod shapes;
mod tables;
mod values;

pub use documents::{DocumentFault, document};
pub use entries::{EntriesFault, Shape, each};
pub use keys::{Misfit, list, optional, otherwise, required, word, word_if_any, word_or};
pub use names::{Named, names_of};
pub use rows::{KeyShape, pairs, pairs_at};
pub use shapes::{TableShape, table_shape};
pub use tables::{array_at, entries_at, has_only};
pub use values::{exactly_one, whole_of, word_of};
