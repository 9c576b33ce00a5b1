//! Reading the parts of a query from the front of a text.
//!
//! Each reader gives the value and the text behind it, or how many bytes are left at the fault.

ghost use Rattle.grammar.specs.Reading.{Gives};
ghost use Rattle.cq_reader.specs.QueryReading.{term_at, atom_at, more_answers_at, answers_at, more_atoms_at, more_atoms_or_blanks_at};

use dl_base::{Atom, Name, Term, Vars, read_name, read_variable};
use grammar::{ListTail, ReadError, expect, next_is_byte, read_list, skip_blanks};
use plain_list::Items;
use std::alloc::Global;

#[tactic(auto, unfolding(crate::specs::QueryReading::term_at))]
fn read_term(alloc: Global, text: &[u8]) -> Result<(Term, &[u8]), ReadError>
    ensures { Gives (λ x. (x.0, x.1.now)) result (term_at text.now) }
{
    if next_is_byte(b'?', text) {
        let (name, rest) = read_variable(alloc, text)?;
        Ok((Term::Var(name), rest))
    } else {
        let (name, rest) = read_name(alloc, text)?;
        Ok((Term::Named(name), rest))
    }
}

/// An atom.
#[tactic(auto, unfolding(crate::specs::QueryReading::atom_at))]
pub fn read_atom(alloc: Global, text: &[u8]) -> Result<(Atom, &[u8]), ReadError>
    ensures { Gives (λ x. (x.0, x.1.now)) result (atom_at text.now) }
{
    let (name, rest) = read_name(alloc, text)?;
    let rest = expect(b"(", rest)?;
    let (_, rest) = skip_blanks(rest);
    let (term, rest) = read_term(alloc, rest)?;
    let (_, rest) = skip_blanks(rest);
    if next_is_byte(b',', rest) {
        let rest = expect(b",", rest)?;
        let (_, rest) = skip_blanks(rest);
        let (to, rest) = read_term(alloc, rest)?;
        let (_, rest) = skip_blanks(rest);
        let rest = expect(b")", rest)?;
        let from = term;
        Ok((Atom::Role { name, from, to }, rest))
    } else {
        let rest = expect(b")", rest)?;
        Ok((Atom::Concept { name, term }, rest))
    }
}

/// The answer variables and the bracket behind them.
#[tactic(auto, unfolding(crate::specs::QueryReading::answers_at))]
pub fn read_answers(alloc: Global, text: &[u8]) -> Result<(Vars, &[u8]), ReadError>
    ensures { Gives (λ x. (x.0, x.1.now)) result (answers_at text.now) }
{
    if next_is_byte(b'?', text) {
        let (name, rest) = read_variable(alloc, text)?;
        read_list::<AnswerList>(alloc, name, rest)
    } else {
        let rest = expect(b")", text)?;
        Ok((Items::new(alloc), rest))
    }
}

/// The lists of answer variables.
struct AnswerList {}

impl ListTail for AnswerList {
    type Item = Name;

    ghost another_at = { λ _. more_answers_at };

    #[tactic(auto, unfolding(crate::specs::QueryReading::more_answers_at))]
    fn read_another(
        alloc: Global,
        _count: usize,
        text: &[u8],
    ) -> Result<(Option<Name>, &[u8]), ReadError> {
        let (_, rest) = skip_blanks(text);
        if next_is_byte(b',', rest) {
            let rest = expect(b",", rest)?;
            let (_, rest) = skip_blanks(rest);
            let (name, rest) = read_variable(alloc, rest)?;
            Ok((Some(name), rest))
        } else {
            let rest = expect(b")", rest)?;
            Ok((None, rest))
        }
    }
}

/// The lists of atoms, which end with the text.
pub struct AtomList {}

impl ListTail for AtomList {
    type Item = Atom;

    ghost another_at = { λ _. more_atoms_at };

    #[tactic(auto, unfolding(crate::specs::QueryReading::more_atoms_at))]
    fn read_another(
        alloc: Global,
        _count: usize,
        text: &[u8],
    ) -> Result<(Option<Atom>, &[u8]), ReadError> {
        if text.is_empty() {
            return Ok((None, text));
        }
        let (_, rest) = skip_blanks(text);
        let rest = expect(b",", rest)?;
        let (_, rest) = skip_blanks(rest);
        let (atom, rest) = read_atom(alloc, rest)?;
        Ok((Some(atom), rest))
    }
}

/// The lists of atoms with blanks behind them, which end with the text.
pub struct AtomListAndBlanks {}

impl ListTail for AtomListAndBlanks {
    type Item = Atom;

    ghost another_at = { λ _. more_atoms_or_blanks_at };

    #[tactic(auto, unfolding(crate::specs::QueryReading::more_atoms_or_blanks_at))]
    fn read_another(
        alloc: Global,
        _count: usize,
        text: &[u8],
    ) -> Result<(Option<Atom>, &[u8]), ReadError> {
        let (_, rest) = skip_blanks(text);
        if next_is_byte(b',', rest) {
            let rest = expect(b",", rest)?;
            let (_, rest) = skip_blanks(rest);
            let (atom, rest) = read_atom(alloc, rest)?;
            Ok((Some(atom), rest))
        } else {
            Ok((None, rest))
        }
    }
}
