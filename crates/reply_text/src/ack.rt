//! The texts of acknowledgements, written without taking memory.
ghost use Rattle.std.specs.Prelude.{◌≡◌, ◌+◌, ◌≤◌, ◌++◌, ◌∷◌, length, take, decimal};
ghost use Rattle.reply_text.specs.ReplyText.{IsAcknowledgement, text_of_reply};

use crate::reply::Reply;
use itoa::Buffer;

/// Writes the text of a reply that tells that something was done into the front of the buffer, and answers its
/// length. It takes no memory.
pub fn ack_bytes(reply: &Reply, buf: &mut [u8; 80]) -> usize
    requires { IsAcknowledgement reply.now }
    ensures within { result ≤ 80 }
    ensures written { take result buf.new ≡ text_of_reply reply.now }
{
    match reply {
        Reply::Done => put(b"ok\n", buf, 0),
        Reply::Committed {
            number,
            added,
            removed,
        } => {
            let at = put(b"ok", buf, 0);
            let at = put_number(*number, buf, at);
            let at = put_number(*added, buf, at);
            let at = put_number(*removed, buf, at);
            put(b"\n", buf, at)
        }
        Reply::Loaded { inclusions } => {
            let at = put(b"ok ontology", buf, 0);
            let at = put_number(*inclusions as u64, buf, at);
            put(b"\n", buf, at)
        }
        Reply::Reopened { transactions } => {
            let at = put(b"ok reopen", buf, 0);
            let at = put_number(*transactions, buf, at);
            put(b"\n", buf, at)
        }
        Reply::Prepared(_)
        | Reply::Answers(_)
        | Reply::Consistent
        | Reply::Inconsistent(_)
        | Reply::Table(_)
        | Reply::Error(_) => 0,
    }
}

/// Writes the bytes at the place, and answers the place behind them.
fn put(bytes: &[u8], buf: &mut [u8; 80], at: usize) -> usize
    requires { at + length bytes.now ≤ 80 }
    ensures end { result ≡ at + length bytes.now }
    ensures written { take result buf.new ≡ take at buf.old ++ bytes.now }
{
    let end = at + bytes.len();
    buf[at..end].copy_from_slice(bytes);
    end
}

/// Writes a space and the number at the place, and answers the place behind them.
fn put_number(number: u64, buf: &mut [u8; 80], at: usize) -> usize
    requires { at + 21 ≤ 80 }
    ensures end { result ≤ at + 21 }
    ensures written { take result buf.new ≡ take at buf.old ++ 32 ∷ decimal number }
{
    let mut buffer = Buffer::new();
    let at = put(b" ", buf, at);
    put(buffer.format(number).as_bytes(), buf, at)
}
