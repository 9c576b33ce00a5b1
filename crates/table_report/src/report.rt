//! The lines of the completed tables of a base.
ghost use Rattle.std.specs.Prelude.{IfOk, List};
ghost use Rattle.completion.specs.Named.{IsNamedCompletion};
ghost use Rattle.dl_base.specs.declared.row.NamedRow.{NamedRow};
ghost use Rattle.witness_book.specs.Witnesses.{generation_of};
ghost use Rattle.table_report.specs.TableLines.{AreTableLines};

use crate::gather::gathered;
use crate::order::in_order;
use crate::writing::lines;
use completion::Completed;
use dl_base::{NameBook, Ontology};
use reply_text::TableLines;
use std::alloc::{AllocError, Global};

/// The lines of the tables that are completed for a base: its live roles with their generations, then what is in each concept,
/// then between what each role leads, all by name and in the order of the names.
///
/// Memory and time follow the rows of the tables; these are put in order once.
pub fn table_lines<'a>(
    alloc: Global,
    tables: &Completed,
    ontology: &'a Ontology,
    individuals: &'a NameBook,
) -> Result<TableLines, AllocError>
    ensures { (rows : List NamedRow) → IsNamedCompletion ontology.now individuals.now rows tables.now → IfOk result (AreTableLines ontology.now rows (generation_of tables.now.book)) }
{
    let entries = in_order(gathered(alloc, tables, ontology, individuals)?);
    lines(alloc, entries.as_slice())
}
