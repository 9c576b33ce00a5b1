//! The payloads of the log's entries: an ontology, or the changes of a transaction.
//!
//! Which bytes are a payload, and of what, is said by grammars (`specs/Changes.antt`, `specs/OntologyPayload.antt`). Numbers are unsigned and stand
//! with their most significant byte first.
#![tactic(auto)]

mod change_reader;
mod change_view;
mod changes;
mod changes_reader;
mod fault;
pub mod laws;
mod name_slice;
mod ontology_reader;
mod ontology_writer;
mod pieces;
mod put;
mod stop;

pub use change_reader::ChangeReader;
pub use change_view::{ChangeView, RowView};
pub use changes::{changes_len, write_changes};
pub use changes_reader::{count_of_changes, read_changes};
pub use fault::CodecError;
pub use name_slice::NameSlice;
pub use ontology_reader::read_ontology;
pub use ontology_writer::{ontology_len, write_ontology};

#[cfg(test)]
mod tests;
