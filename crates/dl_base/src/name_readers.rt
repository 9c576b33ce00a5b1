//! Reading names and variables from the front of a text.
//!
//! Each reader gives the value and the text behind it, or how many bytes are left at the fault.

ghost use Rattle.std.specs.Prelude.{◌≡◌, ◌≤◌, IfOk, length};
ghost use Rattle.grammar.specs.Reading.{Gives};
ghost use Rattle.dl_base.specs.Names.{IsWord, IsBare};
ghost use Rattle.dl_base.specs.NameReading.{is_reserved, bare_at, angled_at, name_at, variable_at, word_at};

use crate::name::Name;
use grammar::{Kind, ReadError, expect, next_is_kind, run, some_of};
use std::alloc::Global;

/// Whether the word is one of the four that are no names: `nothing`, `And`, `Some` and `Inv`.
pub fn is_reserved(word: &[u8]) -> bool
    ensures { result ≡ is_reserved word.now }
{
    word == b"nothing".as_slice()
        || word == b"And".as_slice()
        || word == b"Some".as_slice()
        || word == b"Inv".as_slice()
}

/// A bare name of at most so many bytes.
#[tactic(auto, unfolding(crate::specs::NameReading::bare_at))]
fn bare(most: usize, text: &[u8]) -> Result<(&[u8], &[u8]), ReadError>
    ensures { Gives (λ x. (x.0.now, x.1.now)) result (bare_at most text.now) }
{
    if !next_is_kind(Kind::Starting, text) {
        return Err(ReadError::Fault(text.len()));
    }
    let (word, rest) = run(Kind::Naming, most, text);
    if is_reserved(word) {
        return Err(ReadError::Fault(rest.len()));
    }
    Ok((word, rest))
}

/// A bare name or a reserved word.
#[tactic(auto, unfolding(crate::specs::NameReading::word_at))]
pub fn read_word(text: &[u8]) -> Result<(&[u8], &[u8]), ReadError>
    ensures read { Gives (λ x. (x.0.now, x.1.now)) result (word_at text.now) }
    ensures word { IfOk result (λ x. IsWord x.0.now) }
    ensures short { IfOk result (λ x. length x.0.now ≤ 255) }
{
    if !next_is_kind(Kind::Starting, text) {
        return Err(ReadError::Fault(text.len()));
    }
    Ok(run(Kind::Naming, 255, text))
}

/// A name in angled brackets, which belong to it.
#[tactic(auto, unfolding(crate::specs::NameReading::angled_at), using(crate::proofs::NameRules::angled_is_name))]
pub fn read_angled(alloc: Global, text: &[u8]) -> Result<(Name, &[u8]), ReadError>
    ensures { Gives (λ x. (x.0, x.1.now)) result (angled_at text.now) }
{
    let rest = expect(b"<", text)?;
    let (inner, rest) = some_of(Kind::Angled, 253, rest)?;
    let rest = expect(b">", rest)?;
    let mut bytes = Vec::new(alloc);
    bytes.push(b'<')?;
    bytes.extend_from_slice(inner)?;
    bytes.push(b'>')?;
    Ok((Name::from_vec(bytes), rest))
}

/// A name.
#[tactic(auto, unfolding(crate::specs::NameReading::name_at))]
pub fn read_name(alloc: Global, text: &[u8]) -> Result<(Name, &[u8]), ReadError>
    ensures { Gives (λ x. (x.0, x.1.now)) result (name_at text.now) }
{
    if next_is_kind(Kind::Starting, text) {
        let (word, rest) = bare(255, text)?;
        let bytes = Vec::from_slice(alloc, word)?;
        Ok((Name::from_vec(bytes), rest))
    } else {
        read_angled(alloc, text)
    }
}

/// A variable. The name is what follows its `?`.
#[tactic(auto, unfolding(crate::specs::NameReading::variable_at))]
pub fn read_variable(alloc: Global, text: &[u8]) -> Result<(Name, &[u8]), ReadError>
    ensures { Gives (λ x. (x.0, x.1.now)) result (variable_at text.now) }
{
    let rest = expect(b"?", text)?;
    let (word, rest) = bare(254, rest)?;
    let bytes = Vec::from_slice(alloc, word)?;
    Ok((Name::from_vec(bytes), rest))
}
