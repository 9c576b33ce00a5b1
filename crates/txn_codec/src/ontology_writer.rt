//! Writing the payload of an ontology.

ghost use Rattle.std.specs.Prelude.{◌≡◌, ◌≤◌, ◌+◌, ◌*◌, ◌∷◌, ◌++◌, length, OnOk, OnErr, IsOk, All};
ghost use Rattle.std.specs.List.{flat_map};
ghost use Rattle.byteorder.specs.Endian.{big_bytes};
ghost use Rattle.dl_base.specs.Names.{IsName};
ghost use Rattle.dl_base.specs.Ontology.{IsTerminology, IsPlaced, IsPlacedHead, IsWithin};
ghost use Rattle.txn_codec.specs.OntologyPayload.{ontology_payload};
ghost use Rattle.txn_codec.specs.Spelling.{names_bytes, basic_bytes, inclusion_head_bytes, inclusion_bytes, inclusions_bytes, ontology_bytes};
ghost use Rattle.txn_codec.specs.Room.{HasRoom, Appends};

use crate::put::{name_len, put, put_name};
use dl_base::{Basic, Head, Inclusion, NameBook, Ontology};
use std::alloc::AllocError;

/// How many bytes `write_ontology` appends for this ontology, at most 311,302. It takes no memory.
pub fn ontology_len(o: &Ontology) -> u64
    ensures len { result ≡ length (ontology_bytes o.now) }
    // 512 concepts and 256 roles of 256 bytes each, 4,096 inclusions of 28, and a count of 2 bytes for each of the three.
    ensures most { result ≤ 311302 }
{
    names_len(o.concepts()) + (names_len(o.roles()) + inclusions_len(o.inclusions()))
}

fn names_len(book: &NameBook) -> u64
    requires { length book.now ≤ 512 }
    ensures len { result ≡ length (names_bytes book.now) }
    ensures most { result ≤ 2 + 256 * length book.now }
{
    let mut len = 2;
    let count = book.len() as u32;
    for i in 0..count {
        len += name_len(book.name(i));
    }
    len
}

fn inclusions_len(inclusions: &[Inclusion]) -> u64
    requires few { length inclusions.now ≤ 4096 }
    requires within { All (IsWithin 512 256) inclusions.now }
    ensures len { result ≡ length (inclusions_bytes inclusions.now) }
    ensures most { result ≤ 114690 }
{
    let mut len = 2;
    for inclusion in inclusions {
        len += inclusion_len(inclusion);
    }
    len
}

#[tactic(auto, using(crate::proofs::SpelledOntology::inclusion_len_is))]
fn inclusion_len(inclusion: &Inclusion) -> u64
    requires { IsWithin 512 256 inclusion.now }
    ensures len { result ≡ length (inclusion_bytes inclusion.now) }
    ensures most { result ≤ 28 }
{
    4 + 3 * inclusion.body.items().len() as u64
}

/// Appends the payload of this ontology. At `AllocError` the bytes are as they were; it doesn't come where they have
/// room for as many as `ontology_len` tells.
pub fn write_ontology(o: &Ontology, out: &mut Vec<u8>) -> Result<(), AllocError>
    // The bytes that are appended are a payload of this ontology.
    ensures appended { OnOk result (out.new.items ≡ out.old.items ++ ontology_bytes o.now) }
    ensures payload { OnOk result (ontology_payload (ontology_bytes o.now) o.now) }
    ensures err { OnErr result (out.new.items ≡ out.old.items) }

    // With room for them no memory is wanted.
    ensures succeeds { HasRoom out.old (length (ontology_bytes o.now)) → IsOk result }
{
    out.reserve(ontology_len(o) as usize)?;
    put_names(o.concepts(), out);
    put_names(o.roles(), out);
    put_inclusions(o.inclusions(), out);
    Ok(())
}

fn put_u16(n: u16, out: &mut Vec<u8>)
    requires { HasRoom out.old 2 }
    ensures { Appends out.old out.new (big_bytes 2 n) }
{
    put(&n.to_be_bytes(), out);
}

fn put_names(book: &NameBook, out: &mut Vec<u8>)
    requires few { length book.now ≤ 512 }
    requires room { HasRoom out.old (length (names_bytes book.now)) }
    ensures appended { Appends out.old out.new (names_bytes book.now) }
    ensures names { All IsName book.now }
{
    let count = book.len() as u32;
    put_u16(count as u16, out);
    for i in 0..count {
        put_name(book.name(i), out);
    }
}

fn put_inclusions(inclusions: &[Inclusion], out: &mut Vec<u8>)
    requires few { length inclusions.now ≤ 4096 }
    requires within { All (IsWithin 512 256) inclusions.now }
    requires room { HasRoom out.old (length (inclusions_bytes inclusions.now)) }
    ensures { Appends out.old out.new (inclusions_bytes inclusions.now) }
{
    put_u16(inclusions.len() as u16, out);
    for inclusion in inclusions {
        put_inclusion(inclusion, out);
    }
}

fn put_inclusion(inclusion: &Inclusion, out: &mut Vec<u8>)
    requires within { IsWithin 512 256 inclusion.now }
    requires room { HasRoom out.old (length (inclusion_bytes inclusion.now)) }
    ensures { Appends out.old out.new (inclusion_bytes inclusion.now) }
{
    put_body(inclusion.body.items(), out);
    put_head(&inclusion.head, out);
}

fn put_body(body: &[Basic], out: &mut Vec<u8>)
    requires few { length body.now ≤ 8 }
    requires placed { All (IsPlaced 512 256) body.now }
    requires room { HasRoom out.old (1 + length (flat_map basic_bytes body.now)) }
    ensures { Appends out.old out.new (length body.now ∷ flat_map basic_bytes body.now) }
{
    put(&[body.len() as u8], out);
    for member in body {
        put_basic(member, out);
    }
}

fn put_head(head: &Head, out: &mut Vec<u8>)
    requires placed { IsPlacedHead 512 256 head.now }
    requires room { HasRoom out.old (length (inclusion_head_bytes head.now)) }
    ensures { Appends out.old out.new (inclusion_head_bytes head.now) }
{
    match head {
        Head::Basic(basic) => put_basic(basic, out),
        Head::Nothing => put(&[0, 0, 0], out),
    }
}

#[tactic(auto, using(crate::proofs::Writing::appends_more))]
fn put_basic(basic: &Basic, out: &mut Vec<u8>)
    requires placed { IsPlaced 512 256 basic.now }
    requires room { HasRoom out.old (length (basic_bytes basic.now)) }
    ensures { Appends out.old out.new (basic_bytes basic.now) }
{
    match basic {
        Basic::Concept(place) => put_tagged(1, *place as u16, out),
        Basic::Exists(role) => put_tagged(if role.inverse { 3 } else { 2 }, role.name as u16, out),
    }
}

fn put_tagged(tag: u8, place: u16, out: &mut Vec<u8>)
    requires { HasRoom out.old 3 }
    ensures { Appends out.old out.new (tag ∷ big_bytes 2 place) }
{
    put(&[tag], out);
    put_u16(place, out);
}
