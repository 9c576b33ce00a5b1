// Texts of replies, as the format has them.
use super::*;
use axiom_reader::{BlockCause, BlockError};
use dl_base::{Clash, Items, Name, NamedRole};
use gen_arena::Handle;
use std::alloc::{AllocError, Global};
use std::test::Fail;

fn named(alloc: Global, text: &[u8]) -> Result<Name, AllocError> {
    match Name::new(alloc, text) {
        Ok(name) => Ok(name),
        Err(_) => Err(AllocError),
    }
}

// The names behind one another, as the only key or as the only path.
fn keys(alloc: Global, names: &[&[u8]]) -> Result<Reply, AllocError> {
    let mut key = Items::new(alloc);
    for name in names {
        key.push(named(alloc, name)?)?;
    }
    let mut keys = Items::new(alloc);
    keys.push(key)?;
    Ok(Reply::Answers(keys))
}

fn clash(alloc: Global, names: &[&[u8]]) -> Result<Reply, AllocError> {
    let mut path = Items::new(alloc);
    let mut inverse = false;
    for name in names {
        path.push(NamedRole {
            name: named(alloc, name)?,
            inverse,
        })?;
        inverse = !inverse;
    }
    Ok(Reply::Inconsistent(Clash {
        inclusion: 4000,
        name: named(alloc, b"<ann>")?,
        path,
    }))
}

fn table(alloc: Global, texts: &[&[u8]]) -> Result<Reply, AllocError> {
    let mut lines = Items::new(alloc);
    for text in texts {
        lines.push(TableLine::new(Vec::from_slice(alloc, text)?))?;
    }
    Ok(Reply::Table(lines))
}

// The last handle that may be given.
const LAST: Handle = Handle {
    slot: 255,
    generation: u64::MAX,
};

fn blocked(line: u64, cause: BlockCause) -> Reply {
    Reply::Error(Refusal::Block(BlockError { line, cause }))
}

// Replies, each with its text.
fn replies(alloc: Global) -> Result<Vec<(Reply, &'static [u8])>, AllocError> {
    let no_keys = Reply::Answers(Items::new(alloc));
    let mut all: Vec<(Reply, &'static [u8])> = Vec::new(alloc);
    all.push((Reply::Consistent, b"consistent\n"))?;
    all.push((no_keys, b"end 0\n"))?;
    all.push((keys(alloc, &[])?, b"answer\nend 1\n"))?;
    all.push((keys(alloc, &[b"ann", b"<b>"])?, b"answer ann <b>\nend 1\n"))?;
    all.push((clash(alloc, &[])?, b"inconsistent 4000 <ann>\n"))?;
    all.push((
        clash(alloc, &[b"r", b"s"])?,
        b"inconsistent 4000 <ann> via r Inv(s)\n",
    ))?;
    all.push((Reply::Error(Refusal::Syntax(18)), b"error 1 18\n"))?;
    all.push((Reply::Error(Refusal::LineTooLong), b"error 2\n"))?;
    all.push((blocked(7, BlockCause::Syntax), b"error 5 7 syntax\n"))?;
    all.push((blocked(8, BlockCause::Limit), b"error 5 8 limit\n"))?;
    all.push((blocked(9, BlockCause::Length), b"error 5 9 length\n"))?;
    let concept = Refusal::UnknownConcept(named(alloc, b"Cat")?);
    all.push((Reply::Error(concept), b"error 6 Cat\n"))?;
    let variable = Refusal::UnsafeVariable(named(alloc, b"x")?);
    all.push((Reply::Error(variable), b"error 17 ?x\n"))?;
    all.push((Reply::Error(Refusal::NeverGiven), b"error 13\n"))?;
    all.push((Reply::Error(Refusal::Dropped(2)), b"error 14 2\n"))?;
    all.push((Reply::Error(Refusal::NoSlot), b"error 15\n"))?;
    all.push((
        Reply::Prepared(LAST),
        b"prepared 255.18446744073709551615\n",
    ))?;
    all.push((Reply::Table(Items::new(alloc)), b"end 0\n"))?;
    all.push((
        table(alloc, &[b"witness r 1", b"role r a *r"])?,
        b"witness r 1\nrole r a *r\nend 2\n",
    ))?;
    Ok(all)
}

fn text_of(alloc: Global, reply: &Reply) -> Result<Vec<u8>, AllocError> {
    let mut out = Vec::from_slice(alloc, b"..")?;
    reply_bytes(reply, &mut out)?;
    Ok(out)
}

fn is_part(found: Option<&[u8]>, text: &[u8]) -> bool {
    match found {
        Some(part) => part == text,
        None => false,
    }
}

#[test]
fn each_reply_has_its_text(rt: HostRuntime) -> Result<(), Fail> {
    let alloc = rt.alloc();
    for (reply, text) in replies(alloc)?.iter() {
        let found = text_of(alloc, reply)?;
        assert!(rt; is_part(found.get(2..), text));
    }
    Ok(())
}

// The largest numbers, both ways.
const LARGEST: Reply = Reply::Committed {
    number: u64::MAX,
    added: u64::MAX,
    removed: 0,
};

#[test]
fn an_acknowledgement_is_written_both_ways(rt: HostRuntime) -> Result<(), Fail> {
    let mut buf = [0; 80];
    let len = ack_bytes(&LARGEST, &mut buf);
    let text = b"ok 18446744073709551615 18446744073709551615 0\n".as_slice();
    assert!(rt; is_part(buf.get(..len), text));
    let found = text_of(rt.alloc(), &LARGEST)?;
    assert!(rt; is_part(found.get(2..), text));
    Ok(())
}
