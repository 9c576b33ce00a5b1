//! Reading roles, basic concepts and sides from the front of a text.
//!
//! Each reader gives the value and the text behind it, or how many bytes are left at the fault. A word that may be a
//! name or a keyword is read first, and what stands behind it is read by what it is.

ghost use Rattle.std.specs.Prelude.{ℕ, ◌≤◌, false, List, [], ◌∷◌, length};
ghost use Rattle.grammar.specs.Reading.{Gives, Outcome};
ghost use Rattle.dl_base.specs.Names.{IsWord};
ghost use Rattle.axiom_reader.specs.AxiomReading.{inverse_at, role_at, exists_at, basic_behind_at, basic_at, another_at, conjunction_at, left_behind_at, left_at, right_behind_at, right_at};

use crate::tree::{Members, RightSide};
use dl_base::{Items, Name, NamedBasic, NamedRole, is_reserved, read_angled, read_name, read_word};
use grammar::{
    Kind, ListTail, ReadError, expect, next_is_byte, next_is_kind, read_list, skip_blanks,
    some_blanks,
};
use std::alloc::Global;
use std::marker::PhantomData;

/// What stands behind the word `Inv`.
#[tactic(auto, unfolding(crate::specs::AxiomReading::inverse_at))]
fn read_inverse(alloc: Global, text: &[u8]) -> Result<(NamedRole, &[u8]), ReadError>
    ensures { Gives (λ x. (x.0, x.1.now)) result (inverse_at text.now) }
{
    let rest = expect(b"(", text)?;
    let (_, rest) = skip_blanks(rest);
    let (name, rest) = read_name(alloc, rest)?;
    let (_, rest) = skip_blanks(rest);
    let rest = expect(b")", rest)?;
    let role = NamedRole {
        name,
        inverse: true,
    };
    Ok((role, rest))
}

/// A role.
#[tactic(auto, unfolding(crate::specs::AxiomReading::role_at))]
pub(crate) fn read_role(alloc: Global, text: &[u8]) -> Result<(NamedRole, &[u8]), ReadError>
    ensures { Gives (λ x. (x.0, x.1.now)) result (role_at text.now) }
{
    if !next_is_kind(Kind::Starting, text) {
        let (name, rest) = read_angled(alloc, text)?;
        let role = NamedRole {
            name,
            inverse: false,
        };
        return Ok((role, rest));
    }
    let (word, rest) = read_word(text)?;
    if word == b"Inv".as_slice() {
        return read_inverse(alloc, rest);
    }
    if is_reserved(word) {
        return Err(ReadError::Fault(rest.len()));
    }
    let role = NamedRole {
        name: Name::from_word(alloc, word)?,
        inverse: false,
    };
    Ok((role, rest))
}

/// What stands behind the word `Some`.
#[tactic(auto, unfolding(crate::specs::AxiomReading::exists_at))]
fn read_exists(alloc: Global, text: &[u8]) -> Result<(NamedBasic, &[u8]), ReadError>
    ensures { Gives (λ x. (x.0, x.1.now)) result (exists_at text.now) }
{
    let rest = expect(b"(", text)?;
    let (_, rest) = skip_blanks(rest);
    let (role, rest) = read_role(alloc, rest)?;
    let (_, rest) = skip_blanks(rest);
    let rest = expect(b")", rest)?;
    Ok((NamedBasic::Exists(role), rest))
}

/// The basic concept that begins with the word, of which the text behind the word is given.
#[tactic(auto, unfolding(crate::specs::AxiomReading::basic_behind_at))]
fn read_basic_behind<'a>(
    alloc: Global,
    word: &[u8],
    text: &'a [u8],
) -> Result<(NamedBasic, &'a [u8]), ReadError>
    requires word { IsWord word.now }
    requires short { length word.now ≤ 255 }
    ensures { Gives (λ x. (x.0, x.1.now)) result (basic_behind_at word.now text.now) }
{
    if word == b"Some".as_slice() {
        return read_exists(alloc, text);
    }
    if is_reserved(word) {
        return Err(ReadError::Fault(text.len()));
    }
    let name = Name::from_word(alloc, word)?;
    Ok((NamedBasic::Concept(name), text))
}

/// What stands in lists of two to eight.
pub(crate) trait Listed: Drop {
    /// What is read from the front of a text.
    ghost read_at: { List ℕ → Outcome Self };

    /// The value at the front of the text, and the text behind it.
    fn read(alloc: Global, text: &[u8]) -> Result<(Self, &[u8]), ReadError>
        ensures { Gives (λ x. (x.0, x.1.now)) result (read_at text.now) };
}

/// Lists of two to eight, of which the closing bracket is read too.
pub(crate) struct TwoToEight<V> {
    items: PhantomData<V>,
}

impl<V: Listed> ListTail for TwoToEight<V> {
    type Item = V;

    ghost another_at = { another_at V.read_at };

    #[tactic(auto, unfolding(crate::specs::AxiomReading::another_at))]
    fn read_another(
        alloc: Global,
        count: usize,
        text: &[u8],
    ) -> Result<(Option<V>, &[u8]), ReadError> {
        if count == 0 {
            let (_, rest) = some_blanks(text)?;
            let (item, rest) = V::read(alloc, rest)?;
            return Ok((Some(item), rest));
        }
        let (blanks, rest) = skip_blanks(text);
        if count >= 7 || blanks.is_empty() || next_is_byte(b')', rest) {
            let rest = expect(b")", rest)?;
            Ok((None, rest))
        } else {
            let (item, rest) = V::read(alloc, rest)?;
            Ok((Some(item), rest))
        }
    }
}

impl Listed for NamedBasic {
    ghost read_at = { basic_at };

    #[tactic(auto, unfolding(crate::specs::AxiomReading::basic_at))]
    fn read(alloc: Global, text: &[u8]) -> Result<(NamedBasic, &[u8]), ReadError> {
        if next_is_kind(Kind::Starting, text) {
            let (word, rest) = read_word(text)?;
            read_basic_behind(alloc, word, rest)
        } else {
            let (name, rest) = read_angled(alloc, text)?;
            Ok((NamedBasic::Concept(name), rest))
        }
    }
}

/// What stands behind the word `And`.
#[tactic(auto, unfolding(crate::specs::AxiomReading::conjunction_at))]
fn read_conjunction(alloc: Global, text: &[u8]) -> Result<(Members, &[u8]), ReadError>
    ensures { Gives (λ x. (x.0, x.1.now)) result (conjunction_at text.now) }
{
    let rest = expect(b"(", text)?;
    let (_, rest) = skip_blanks(rest);
    let (first, rest) = NamedBasic::read(alloc, rest)?;
    read_list::<TwoToEight<NamedBasic>>(alloc, first, rest)
}

/// The left side of one basic concept.
fn single(alloc: Global, basic: NamedBasic) -> Result<Members, ReadError>
    ensures { Gives (λ m. m) result (Ok (basic ∷ [])) }
{
    let mut members = Items::new(alloc);
    members.push(basic)?;
    Ok(members)
}

/// The left side that begins with the word, of which the text behind the word is given.
#[tactic(auto, unfolding(crate::specs::AxiomReading::left_behind_at))]
fn read_left_behind<'a>(
    alloc: Global,
    word: &[u8],
    text: &'a [u8],
) -> Result<(Members, &'a [u8]), ReadError>
    requires word { IsWord word.now }
    requires short { length word.now ≤ 255 }
    ensures { Gives (λ x. (x.0, x.1.now)) result (left_behind_at word.now text.now) }
{
    if word == b"And".as_slice() {
        return read_conjunction(alloc, text);
    }
    let (basic, rest) = read_basic_behind(alloc, word, text)?;
    Ok((single(alloc, basic)?, rest))
}

impl Listed for Members {
    ghost read_at = { left_at };

    #[tactic(auto, unfolding(crate::specs::AxiomReading::left_at))]
    fn read(alloc: Global, text: &[u8]) -> Result<(Members, &[u8]), ReadError> {
        if next_is_kind(Kind::Starting, text) {
            let (word, rest) = read_word(text)?;
            read_left_behind(alloc, word, rest)
        } else {
            let (name, rest) = read_angled(alloc, text)?;
            Ok((single(alloc, NamedBasic::Concept(name))?, rest))
        }
    }
}

/// The right side that begins with the word, of which the text behind the word is given.
#[tactic(auto, unfolding(crate::specs::AxiomReading::right_behind_at))]
fn read_right_behind<'a>(
    alloc: Global,
    word: &[u8],
    text: &'a [u8],
) -> Result<(RightSide, &'a [u8]), ReadError>
    requires word { IsWord word.now }
    requires short { length word.now ≤ 255 }
    ensures { Gives (λ x. (x.0, x.1.now)) result (right_behind_at word.now text.now) }
{
    if word == b"nothing".as_slice() {
        return Ok((RightSide::Nothing, text));
    }
    let (members, rest) = read_left_behind(alloc, word, text)?;
    Ok((RightSide::Members(members), rest))
}

/// A right side.
#[tactic(auto, unfolding(crate::specs::AxiomReading::right_at))]
pub(crate) fn read_right(alloc: Global, text: &[u8]) -> Result<(RightSide, &[u8]), ReadError>
    ensures { Gives (λ x. (x.0, x.1.now)) result (right_at text.now) }
{
    if next_is_kind(Kind::Starting, text) {
        let (word, rest) = read_word(text)?;
        read_right_behind(alloc, word, rest)
    } else {
        let (name, rest) = read_angled(alloc, text)?;
        let members = single(alloc, NamedBasic::Concept(name))?;
        Ok((RightSide::Members(members), rest))
    }
}
