//! What all readers of texts share: the bytes at the front of a text, and why a text could not be read.
//!
//! A grammar is a relation between texts and values (`specs/Grammar.antt`). A reader follows a pure reading of its
//! grammar (`specs/Reading.antt`), and the rules by which readings of parts make an exact reading of the whole are
//! lemmas (`proofs/Rules.antt`, `proofs/Lists.antt`).
#![tactic(auto)]

mod bytes;
mod fault;
mod numbers;
mod reading;

pub use bytes::{Kind, expect, next_is_byte, next_is_kind, run, skip_blanks, some_blanks, some_of};
pub use fault::ReadError;
pub use numbers::read_number;
pub use reading::{ListTail, read_list, whole};

#[cfg(test)]
mod tests;
