//! Reading the pieces of payloads from the front of bytes.
//!
//! Each reader gives the value and the bytes behind it, or how many bytes are left at the fault. Only `read_spelled_name`
//! takes memory.

ghost use Rattle.std.specs.Prelude.{◌≡◌, [], ◌∷◌};
ghost use Rattle.grammar.specs.Bytes.{is_kind};
ghost use Rattle.grammar.specs.Reading.{Gives, expect_at};
ghost use Rattle.txn_codec.specs.PiecesReading.{number_at, name_length_at, exactly_at, bare_of_at, angled_of_at, name_of_at, spelled_name_at};
ghost use Rattle.txn_codec.specs.Skimming.{Skims};

use crate::NameSlice;
use crate::stop::Stop;
use byteorder::{BigEndian, ByteOrder};
use dl_base::{Name, is_reserved};
use grammar::{Kind, ReadError, next_is_kind, run};
use std::alloc::Global;

/// A number of 2 bytes.
#[tactic(auto, unfolding(crate::specs::PiecesReading::number_at))]
pub(crate) fn read_u16(text: &[u8]) -> Result<(u16, &[u8]), ReadError>
    ensures { Gives (λ x. (x.0, x.1.now)) result (number_at 2 text.now) }
{
    if text.len() < 2 {
        return Err(ReadError::Fault(0));
    }
    Ok((BigEndian::read_u16(text), &text[2..]))
}

/// A number of 4 bytes.
#[tactic(auto, unfolding(crate::specs::PiecesReading::number_at))]
pub(crate) fn skim_u32(text: &[u8]) -> Result<(u32, &[u8]), Stop>
    ensures { Skims (λ x. (x.0, x.1.now)) result (number_at 4 text.now) }
{
    if text.len() < 4 {
        return Err(Stop { left: 0 });
    }
    Ok((BigEndian::read_u32(text), &text[4..]))
}

/// The bytes behind this one.
pub(crate) fn skim_byte(byte: u8, text: &[u8]) -> Result<&[u8], Stop>
    ensures { Skims (λ rest. (tt, rest.now)) result (expect_at (byte ∷ []) text.now) }
{
    match text {
        [] => Err(Stop { left: 0 }),
        [next, rest @ ..] => {
            if *next != byte {
                return Err(Stop { left: text.len() });
            }
            Ok(rest)
        }
    }
}

/// The length of a name, which is not 0.
#[tactic(auto, unfolding(crate::specs::PiecesReading::name_length_at))]
fn skim_name_length(text: &[u8]) -> Result<(u8, &[u8]), Stop>
    ensures { Skims (λ x. (x.0, x.1.now)) result (name_length_at text.now) }
{
    match text {
        [] => Err(Stop { left: 0 }),
        [length, rest @ ..] => {
            if *length == 0 {
                return Err(Stop { left: text.len() });
            }
            Ok((*length, rest))
        }
    }
}

/// Exactly so many bytes of the kind.
#[tactic(auto, unfolding(crate::specs::PiecesReading::exactly_at))]
fn exactly(kind: Kind, n: usize, text: &[u8]) -> Result<(&[u8], &[u8]), Stop>
    ensures { Skims (λ x. (x.0.now, x.1.now)) result (exactly_at (is_kind kind) n text.now) }
{
    let (found, rest) = run(kind, n, text);
    if found.len() < n {
        return Err(Stop { left: rest.len() });
    }
    Ok((found, rest))
}

/// The bytes of a bare name, exactly so many.
#[tactic(auto, unfolding(crate::specs::PiecesReading::bare_of_at))]
fn skim_bare(n: u8, text: &[u8]) -> Result<(&[u8], &[u8]), Stop>
    ensures { Skims (λ x. (x.0.now, x.1.now)) result (bare_of_at n text.now) }
{
    let (word, rest) = exactly(Kind::Naming, n as usize, text)?;
    if is_reserved(word) {
        return Err(Stop {
            left: rest.len() + 1,
        });
    }
    Ok((word, rest))
}

/// The bytes of an angled name, exactly so many.
#[tactic(auto, unfolding(crate::specs::PiecesReading::angled_of_at))]
fn skim_angled(n: u8, text: &[u8]) -> Result<(&[u8], &[u8]), Stop>
    ensures { Skims (λ x. (x.0.now, x.1.now)) result (angled_of_at n text.now) }
{
    if n < 3 {
        return Err(Stop { left: text.len() });
    }
    let inside = skim_byte(b'<', text)?;
    let (_, close) = exactly(Kind::Angled, n as usize - 2, inside)?;
    let rest = skim_byte(b'>', close)?;
    Ok((&text[..n as usize], rest))
}

/// The bytes of a name, exactly so many.
#[tactic(auto, unfolding(crate::specs::PiecesReading::name_of_at))]
fn skim_name(n: u8, text: &[u8]) -> Result<(&[u8], &[u8]), Stop>
    ensures { Skims (λ x. (x.0.now, x.1.now)) result (name_of_at n text.now) }
{
    if next_is_kind(Kind::Starting, text) {
        skim_bare(n, text)
    } else {
        skim_angled(n, text)
    }
}

/// A name behind its length.
#[tactic(auto, unfolding(crate::specs::PiecesReading::spelled_name_at))]
pub(crate) fn skim_spelled_name(text: &[u8]) -> Result<(NameSlice<'_>, &[u8]), Stop>
    ensures { Skims (λ x. (x.0, x.1.now)) result (spelled_name_at text.now) }
{
    let (n, rest) = skim_name_length(text)?;
    let (bytes, rest) = skim_name(n, rest)?;
    Ok((NameSlice::of(bytes), rest))
}

/// A name behind its length, with memory of its own.
pub(crate) fn read_spelled_name(alloc: Global, text: &[u8]) -> Result<(Name, &[u8]), ReadError>
    ensures { Gives (λ x. (x.0, x.1.now)) result (spelled_name_at text.now) }
{
    let (name, rest) = skim_spelled_name(text)?;
    Ok((name.to_name(alloc)?, rest))
}
