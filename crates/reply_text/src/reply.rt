//! What a script's requests are answered with.

use crate::table_line::TableLines;
use axiom_reader::BlockError;
use dl_base::{Clash, Keys, Name};
use gen_arena::Handle;

/// The reply to a request.
#[derive(Debug, Drop)]
pub enum Reply {
    /// The command did what it says.
    Done,
    /// A session's changes are a transaction of the log.
    Committed {
        /// Its number, counted from 1.
        number: u64,
        /// How many rows are there that weren't there before.
        added: u64,
        /// How many rows were there that aren't there now.
        removed: u64,
    },
    /// The base has an ontology.
    Loaded {
        /// How many inclusions it has.
        inclusions: u32,
    },
    /// The base was given up and loaded again.
    Reopened {
        /// How many transactions it has.
        transactions: u64,
    },
    /// The query is kept under the handle.
    Prepared(Handle),
    /// The answers of a query.
    Answers(Keys),
    /// The base has no clash.
    Consistent,
    /// The base's first clash.
    Inconsistent(Clash),
    /// The completed tables.
    Table(TableLines),
    /// The request was refused, and nothing changed.
    Error(Refusal),
}

/// Why a request is refused, in the order of the error numbers.
#[derive(Debug, Drop)]
pub enum Refusal {
    /// 1: the line is no command. The place of the fault in the line, counted from 1.
    Syntax(u64),
    /// 2: the line is too long.
    LineTooLong,
    /// 3: there is no ontology.
    NoOntology,
    /// 4: there is an ontology already.
    OntologyThere,
    /// 5: a line of the ontology offends.
    Block(BlockError),
    /// 6: no axiom names this concept.
    UnknownConcept(Name),
    /// 7: no axiom names this role.
    UnknownRole(Name),
    /// 8: the session isn't open.
    NotOpen,
    /// 9: the session is open already.
    AlreadyOpen,
    /// 10: 10,000 changes of the session are pending.
    Pending,
    /// 11: there would be more than 1,000,000 rows or 65,536 individuals.
    Crowded,
    /// 12: the log has no room for it.
    LogFull,
    /// 13: the handle was never given.
    NeverGiven,
    /// 14: the query of the handle was dropped. The last generation of the handle's slot.
    Dropped(u64),
    /// 15: no slot is left for a prepared query.
    NoSlot,
    /// 16: the query has more than 24 atoms, distinct terms or answer places.
    QueryTooLarge,
    /// 17: this is the first answer variable that is in no atom, without its `?`.
    UnsafeVariable(Name),
}
