// The requests of whole scripts, and replies that are counted. Engines and hosts stand above this crate.
use super::*;
use crate::gathering::requests_of;
use axiom_reader::{BlockCause, BlockError};
use plain_list::Items;
use reply_text::{Refusal, Reply};
use script_reader::{Command, Request};
use std::test::Fail;

#[test]
fn a_script_has_its_requests(rt: HostRuntime) -> Result<(), Fail> {
    let script =
        b"ontology\nClass(A)\nend\n# a comment\n\nbegin 0\nwords\r\ncheck\nontology\nClass(B)";
    let requests = requests_of(rt.alloc(), script)?;
    let [block, begin, bad, check, cut] = requests.items() else {
        assert_eq!(rt; requests.items().len(), 5);
        return Ok(());
    };
    assert!(rt; matches!(block, Request::Block(Ok(_))));
    assert!(rt; matches!(begin, Request::Plain(Command::Begin(0))));
    assert!(rt; matches!(bad, Request::Bad(Refusal::Syntax(1))));
    assert!(rt; matches!(check, Request::Plain(Command::Check)));
    assert!(rt;
        matches!(
            cut,
            Request::Block(Err(BlockError {
                line: 2,
                cause: BlockCause::Syntax
            }))
        )
    );
    Ok(())
}

#[test]
fn replies_are_counted(rt: HostRuntime) -> Result<(), Fail> {
    let mut keys = Items::new(rt.alloc());
    keys.push(Items::new(rt.alloc()))?;
    let mut text = Vec::new(rt.alloc());
    let tally = Tally::none()
        .with(&Reply::Done, &mut text)?
        .with(&Reply::Answers(keys), &mut text)?
        .with(&Reply::Consistent, &mut text)?;
    assert_eq!(rt; (tally.replies, tally.answers, tally.bytes), (3, 1, 27));
    Ok(())
}
