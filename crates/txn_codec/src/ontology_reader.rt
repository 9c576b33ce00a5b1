//! Reading the payload of an ontology.

ghost use Rattle.std.specs.Prelude.{◌≡◌, ◌≢◌, ◌<◌, ◌≤◌, [], IfOk, IfErr, All, AllPairs, Contains, length};
ghost use Rattle.grammar.specs.Reading.{Gives, whole};
ghost use Rattle.dl_base.specs.Ontology.{Terminology, IsPlaced, IsPlacedHead, IsWithin};
ghost use Rattle.txn_codec.specs.OntologyPayload.{limit_of, basic_of, ontology_payload};
ghost use Rattle.txn_codec.specs.OntologyReading.{count_at, byte_at, each_at, new_name_at, names_at, place_at, tagged_at, member_at, tagged_head_at, head_at, inclusion_at, inclusions_at, ontology_at};
ghost use Rattle.txn_codec.specs.Fault.{IsOntologyFault};

use crate::CodecError;
use crate::pieces::{read_spelled_name, read_u16};
use dl_base::{Basic, Body, Head, Inclusion, Items, Name, NameBook, Ontology, Role};
use grammar::{ReadError, expect};
use std::alloc::Global;

/// A number of 2 bytes that is at most this.
#[tactic(auto, unfolding(crate::specs::OntologyReading::count_at))]
fn read_count(most: u16, text: &[u8]) -> Result<(u16, &[u8]), ReadError>
    ensures read { Gives (λ x. (x.0, x.1.now)) result (count_at most text.now) }
    ensures few { IfOk result (λ x. x.0 ≤ most) }
{
    match text {
        [] => Err(ReadError::Fault(0)),
        [high, rest @ ..] => {
            let high = *high as usize * 256;
            if high > most as usize {
                return Err(ReadError::Fault(text.len()));
            }
            match rest {
                [] => Err(ReadError::Fault(0)),
                [low, after @ ..] => {
                    let count = high + *low as usize;
                    if count > most as usize {
                        return Err(ReadError::Fault(rest.len()));
                    }
                    Ok((count as u16, after))
                }
            }
        }
    }
}

/// One byte within these bounds.
#[tactic(auto, unfolding(crate::specs::OntologyReading::byte_at))]
fn read_byte(least: u8, most: u8, text: &[u8]) -> Result<(u8, &[u8]), ReadError>
    ensures read { Gives (λ x. (x.0, x.1.now)) result (byte_at least most text.now) }
    ensures least { IfOk result (λ x. least ≤ x.0) }
    ensures most { IfOk result (λ x. x.0 ≤ most) }
{
    match text {
        [] => Err(ReadError::Fault(0)),
        [byte, rest @ ..] => {
            if least <= *byte && *byte <= most {
                Ok((*byte, rest))
            } else {
                Err(ReadError::Fault(text.len()))
            }
        }
    }
}

/// A name that the book hasn't got. The fault of one that it has is the byte behind its length.
#[tactic(auto, unfolding(crate::specs::OntologyReading::new_name_at))]
fn read_new_name<'a>(
    alloc: Global,
    book: &NameBook,
    text: &'a [u8],
) -> Result<(Name, &'a [u8]), ReadError>
    ensures read { Gives (λ x. (x.0, x.1.now)) result (new_name_at book.now text.now) }
    ensures new { IfOk result (λ x. Contains book.now x.0 → ⊥) }
{
    let (name, rest) = read_spelled_name(alloc, text)?;
    match book.find(name.bytes()) {
        Some(_) => Err(ReadError::Fault(text.len() - 1)),
        None => Ok((name, rest)),
    }
}

/// So many distinct names, one behind the other.
#[tactic(auto, using(crate::proofs::ChecksLists::each_lists))]
fn read_new_names(alloc: Global, count: u16, text: &[u8]) -> Result<(NameBook, &[u8]), ReadError>
    ensures read { Gives (λ x. (x.0, x.1.now)) result (each_at new_name_at [] count text.now) }
    ensures count { IfOk result (λ x. length x.0 ≡ count) }
    ensures distinct { IfOk result (λ x. AllPairs (λ a b. a ≢ b) x.0) }
{
    let mut book = NameBook::new(alloc);
    let mut rest = text;
    for i in 0..count {
        let (name, after) = read_new_name(alloc, &book, rest)?;
        rest = after;
        book.intern(&name)?;
    }
    let _ = book.len();
    Ok((book, rest))
}

/// At most so many distinct names, behind their number.
#[tactic(auto, unfolding(crate::specs::OntologyReading::names_at))]
fn read_names(alloc: Global, most: u16, text: &[u8]) -> Result<(NameBook, &[u8]), ReadError>
    ensures read { Gives (λ x. (x.0, x.1.now)) result (names_at most text.now) }
    ensures few { IfOk result (λ x. length x.0 ≤ most) }
    ensures distinct { IfOk result (λ x. AllPairs (λ a b. a ≢ b) x.0) }
{
    let (count, rest) = read_count(most, text)?;
    read_new_names(alloc, count, rest)
}

/// The place of a name, which is below the limit. The fault of one that isn't is its first byte.
#[tactic(auto, unfolding(crate::specs::OntologyReading::place_at))]
fn read_place(limit: usize, text: &[u8]) -> Result<(u16, &[u8]), ReadError>
    ensures read { Gives (λ x. (x.0, x.1.now)) result (place_at limit text.now) }
    ensures below { IfOk result (λ x. x.0 < limit) }
{
    let (place, rest) = read_u16(text)?;
    if limit <= place as usize {
        return Err(ReadError::Fault(text.len()));
    }
    Ok((place, rest))
}

/// The basic concept of the tag: 1 is a concept, 2 what has a successor by a role, and 3 what has one by its inverse.
fn basic_of(tag: u8, place: u16) -> Basic
    ensures { result ≡ basic_of tag place }
{
    if tag == 1 {
        Basic::Concept(place as u32)
    } else {
        Basic::Exists(Role {
            name: place as u32,
            inverse: tag == 3,
        })
    }
}

/// The place of a basic concept behind its tag.
#[tactic(auto, unfolding(crate::specs::OntologyReading::tagged_at))]
fn read_tagged(
    concepts: usize,
    roles: usize,
    tag: u8,
    text: &[u8],
) -> Result<(Basic, &[u8]), ReadError>
    ensures read { Gives (λ x. (x.0, x.1.now)) result (tagged_at concepts roles tag text.now) }
    ensures placed { IfOk result (λ x. IsPlaced concepts roles x.0) }
{
    let limit = if tag == 1 { concepts } else { roles };
    let (place, rest) = read_place(limit, text)?;
    Ok((basic_of(tag, place), rest))
}

/// A member of a body.
#[tactic(auto, unfolding(crate::specs::OntologyReading::member_at))]
fn read_member(concepts: usize, roles: usize, text: &[u8]) -> Result<(Basic, &[u8]), ReadError>
    ensures read { Gives (λ x. (x.0, x.1.now)) result (member_at concepts roles text.now) }
    ensures placed { IfOk result (λ x. IsPlaced concepts roles x.0) }
{
    let (tag, rest) = read_byte(1, 3, text)?;
    read_tagged(concepts, roles, tag, rest)
}

/// What stands behind the tag of a head: a place, or the number 0 where the head is nothing.
#[tactic(auto, unfolding(crate::specs::OntologyReading::tagged_head_at))]
fn read_tagged_head(
    concepts: usize,
    roles: usize,
    tag: u8,
    text: &[u8],
) -> Result<(Head, &[u8]), ReadError>
    ensures read { Gives (λ x. (x.0, x.1.now)) result (tagged_head_at concepts roles tag text.now) }
    ensures placed { IfOk result (λ x. IsPlacedHead concepts roles x.0) }
{
    if tag == 0 {
        let rest = expect(&[0, 0], text)?;
        Ok((Head::Nothing, rest))
    } else {
        let (basic, rest) = read_tagged(concepts, roles, tag, text)?;
        Ok((Head::Basic(basic), rest))
    }
}

/// The head of an inclusion.
#[tactic(auto, unfolding(crate::specs::OntologyReading::head_at))]
fn read_head(concepts: usize, roles: usize, text: &[u8]) -> Result<(Head, &[u8]), ReadError>
    ensures read { Gives (λ x. (x.0, x.1.now)) result (head_at concepts roles text.now) }
    ensures placed { IfOk result (λ x. IsPlacedHead concepts roles x.0) }
{
    let (tag, rest) = read_byte(0, 3, text)?;
    read_tagged_head(concepts, roles, tag, rest)
}

/// So many members of a body.
#[tactic(auto, using(crate::proofs::ChecksLists::each_lists))]
fn read_body(
    alloc: Global,
    concepts: usize,
    roles: usize,
    count: u8,
    text: &[u8],
) -> Result<(Body, &[u8]), ReadError>
    ensures read { Gives (λ x. (x.0, x.1.now)) result (each_at (λ _. member_at concepts roles) [] count text.now) }
    ensures count { IfOk result (λ x. length x.0 ≡ count) }
    ensures placed { IfOk result (λ x. All (IsPlaced concepts roles) x.0) }
{
    let mut found = Items::new(alloc);
    let mut rest = text;
    for i in 0..count {
        let (member, after) = read_member(concepts, roles, rest)?;
        rest = after;
        found.push(member)?;
    }
    Ok((found, rest))
}

/// An inclusion.
#[tactic(auto, unfolding(crate::specs::OntologyReading::inclusion_at))]
fn read_inclusion(
    alloc: Global,
    concepts: usize,
    roles: usize,
    text: &[u8],
) -> Result<(Inclusion, &[u8]), ReadError>
    ensures read { Gives (λ x. (x.0, x.1.now)) result (inclusion_at concepts roles text.now) }
    ensures within { IfOk result (λ x. IsWithin concepts roles x.0) }
{
    let (count, rest) = read_byte(1, 8, text)?;
    let (body, rest) = read_body(alloc, concepts, roles, count, rest)?;
    let (head, rest) = read_head(concepts, roles, rest)?;
    Ok((Inclusion { body, head }, rest))
}

/// So many inclusions.
#[tactic(auto, using(crate::proofs::ChecksLists::each_lists))]
fn read_inclusions(
    alloc: Global,
    concepts: usize,
    roles: usize,
    count: u16,
    text: &[u8],
) -> Result<(Items<Inclusion>, &[u8]), ReadError>
    ensures read { Gives (λ x. (x.0, x.1.now)) result (each_at (λ _. inclusion_at concepts roles) [] count text.now) }
    ensures count { IfOk result (λ x. length x.0 ≡ count) }
    ensures within { IfOk result (λ x. All (IsWithin concepts roles) x.0) }
{
    // An inclusion takes 7 bytes at least, so no more than these can be there, whatever the count says.
    let most = text.len() / 7;
    let mut found = Vec::with_capacity(alloc, most.min(count as usize))?;
    let mut rest = text;
    for i in 0..count {
        let (inclusion, after) = read_inclusion(alloc, concepts, roles, rest)?;
        rest = after;
        found.push(inclusion)?;
    }
    Ok((Items::from_vec(found), rest))
}

/// The inclusions behind their number, over these names.
#[tactic(auto, unfolding(crate::specs::OntologyReading::inclusions_at))]
fn read_all_inclusions<'a>(
    alloc: Global,
    concepts: &NameBook,
    roles: &NameBook,
    text: &'a [u8],
) -> Result<(Items<Inclusion>, &'a [u8]), ReadError>
    ensures read { Gives (λ x. (x.0, x.1.now)) result (inclusions_at (length concepts.now) (length roles.now) text.now) }
    ensures few { IfOk result (λ x. length x.0 ≤ 4096) }
    ensures within { IfOk result (λ x. All (IsWithin (length concepts.now) (length roles.now)) x.0) }
{
    let (count, rest) = read_count(4096, text)?;
    let concepts = concepts.len();
    let roles = roles.len();
    read_inclusions(alloc, concepts, roles, count, rest)
}

#[tactic(auto, unfolding(crate::specs::OntologyReading::ontology_at))]
fn read_parts(alloc: Global, text: &[u8]) -> Result<(Ontology, &[u8]), ReadError>
    ensures { Gives (λ x. (x.0, x.1.now)) result (ontology_at text.now) }
{
    let (concepts, rest) = read_names(alloc, 512, text)?;
    let (roles, rest) = read_names(alloc, 256, rest)?;
    let (inclusions, rest) = read_all_inclusions(alloc, &concepts, &roles, rest)?;
    Ok((Ontology::from_parts(concepts, roles, inclusions), rest))
}

fn read_whole(alloc: Global, text: &[u8]) -> Result<Ontology, ReadError>
    ensures { Gives (λ o. o) result (whole (ontology_at text.now)) }
{
    let (ontology, rest) = read_parts(alloc, text)?;
    if !rest.is_empty() {
        return Err(ReadError::Fault(rest.len()));
    }
    Ok(ontology)
}

/// The ontology that the bytes are the payload of.
pub fn read_ontology(alloc: Global, bytes: &[u8]) -> Result<Ontology, CodecError>
    // The bytes are the payload of this ontology and of no other.
    ensures found { IfOk result (λ o. ontology_payload bytes.now o) }
    ensures only { IfOk result (λ o. (other : Terminology) → ontology_payload bytes.now other → other ≡ o) }

    // Else the place is the least one of a fault or a flaw.
    ensures fault { IfErr result (λ error. IsOntologyFault bytes.now error) }
{
    match read_whole(alloc, bytes) {
        Ok(ontology) => {
            let _ = ontology.concepts();
            Ok(ontology)
        }
        Err(ReadError::Fault(left)) => Err(CodecError::Bad((bytes.len() - left) as u64)),
        Err(ReadError::Memory) => Err(CodecError::NoMemory),
    }
}
