//! Replies, counted.
ghost use Rattle.std.specs.Prelude.{◌≡◌, ◌<◌, [], IfOk};
ghost use Rattle.script_tally.specs.Tallying.{CountsReply, CountsFit, answers_in, tally_of};

use reply_text::{Reply, reply_bytes};
use std::alloc::AllocError;

/// How many replies there are, how many answers they have together, and how many bytes their texts have.
#[derive(Clone, Copy, Debug, PartialEq, Eq)]
pub struct Tally {
    /// The number of replies.
    pub replies: u64,
    /// The number of answers: that of the keys of each reply to a query.
    pub answers: u128,
    /// The number of bytes of the texts, line ends and all.
    pub bytes: u128,
}

impl Tally {
    /// The tally of no replies.
    pub(crate) fn none() -> Tally
        ensures { result ≡ tally_of [] }
    {
        Tally {
            replies: 0,
            answers: 0,
            bytes: 0,
        }
    }

    /// The tally with one reply more. Its text is written into the buffer.
    pub(crate) fn with(self, reply: &Reply, text: &mut Vec<u8>) -> Result<Tally, AllocError>
        requires few { self.replies < 100000000 }
        requires within { CountsFit self }
        ensures adds { IfOk result (CountsReply self reply.now) }
        ensures within { IfOk result CountsFit }
    {
        text.clear();
        reply_bytes(reply, text)?;
        Ok(Tally {
            replies: self.replies + 1,
            answers: self.answers + answers_of(reply) as u128,
            bytes: self.bytes + text.len() as u128,
        })
    }
}

/// How many answers the reply has.
fn answers_of(reply: &Reply) -> usize
    ensures { result ≡ answers_in reply.now }
{
    match reply {
        Reply::Answers(keys) => keys.items().len(),
        Reply::Done
        | Reply::Committed { .. }
        | Reply::Loaded { .. }
        | Reply::Reopened { .. }
        | Reply::Prepared(_)
        | Reply::Consistent
        | Reply::Inconsistent(_)
        | Reply::Table(_)
        | Reply::Error(_) => 0,
    }
}
