//! Kinds of bytes, and the bytes at the front of a text.

ghost use Rattle.std.specs.Prelude.{◌≡◌, ◌==◌, Ok};
ghost use Rattle.grammar.specs.Bytes.{is_kind};
ghost use Rattle.grammar.specs.Reading.{Gives, run_len, run_at, expect_at, next_is, some_at, blanks_at, some_blanks_at};

use crate::fault::ReadError;

/// A kind of bytes that the formats name.
#[derive(Clone, Copy)]
pub enum Kind {
    /// A space or a tab.
    Blank,
    /// What a bare name begins with: an ASCII letter or `_`.
    Starting,
    /// What a bare name goes on with: an ASCII letter, a digit, `_`, `-` or `.`.
    Naming,
    /// What stands between the brackets of an angled name: any byte but 0x00 to 0x20, 0x7F, `<`, `>` and `"`.
    Angled,
}

impl Kind {
    #[tactic(auto, unfolding(crate::specs::Bytes::is_kind))]
    fn has(self, byte: u8) -> bool
        ensures { result ≡ is_kind self byte }
    {
        match self {
            Kind::Blank => byte == b' ' || byte == b'\t',
            Kind::Starting => byte.is_ascii_alphabetic() || byte == b'_',
            Kind::Naming => {
                byte.is_ascii_alphabetic()
                    || byte.is_ascii_digit()
                    || byte == b'_'
                    || byte == b'-'
                    || byte == b'.'
            }
            Kind::Angled => {
                byte > 32 && !(byte == 127 || byte == b'<' || byte == b'>' || byte == b'"')
            }
        }
    }
}

/// How many bytes of the kind are at the front, counted up to `most`.
#[tactic(auto, using(crate::proofs::Loops::runs))]
fn run_len(kind: Kind, most: usize, text: &[u8]) -> usize
    ensures { result ≡ run_len (is_kind kind) most text.now }
{
    let mut n = 0;
    for byte in text {
        if n == most {
            return n;
        }
        if !kind.has(*byte) {
            return n;
        }
        n += 1;
    }
    n
}

/// The bytes of the kind at the front, at most so many, and the text behind them.
#[tactic(auto, using(crate::proofs::Loops::runs))]
pub fn run(kind: Kind, most: usize, text: &[u8]) -> (&[u8], &[u8])
    ensures { (result.0.now, result.1.now) ≡ run_at (is_kind kind) most text.now }
{
    let n = run_len(kind, most, text);
    text.split_at(n)
}

/// Whether the text has a next byte and it is of the kind.
pub fn next_is_kind(kind: Kind, text: &[u8]) -> bool
    ensures { result ≡ next_is (is_kind kind) text.now }
{
    match text {
        [] => false,
        [next, ..] => kind.has(*next),
    }
}

/// Whether the text has a next byte and it is this one.
pub fn next_is_byte(byte: u8, text: &[u8]) -> bool
    ensures { result ≡ next_is (λ c. c == byte) text.now }
{
    match text {
        [] => false,
        [next, ..] => *next == byte,
    }
}

/// One or more bytes of the kind at the front, at most so many, and the text behind them. The fault is at the front
/// where there is none.
#[tactic(auto, unfolding(crate::specs::Reading::some_at))]
pub fn some_of(kind: Kind, most: usize, text: &[u8]) -> Result<(&[u8], &[u8]), ReadError>
    ensures { Gives (λ x. (x.0.now, x.1.now)) result (some_at (is_kind kind) most text.now) }
{
    if !next_is_kind(kind, text) {
        return Err(ReadError::Fault(text.len()));
    }
    Ok(run(kind, most, text))
}

/// The blanks at the front, and the text behind them.
#[tactic(auto, unfolding(crate::specs::Reading::blanks_at))]
pub fn skip_blanks(text: &[u8]) -> (&[u8], &[u8])
    ensures { blanks_at text.now ≡ Ok (result.0.now, result.1.now) }
{
    run(Kind::Blank, text.len(), text)
}

/// One or more blanks at the front, and the text behind them. The fault is at the front where there is none.
#[tactic(auto, unfolding(crate::specs::Reading::some_blanks_at))]
pub fn some_blanks(text: &[u8]) -> Result<(&[u8], &[u8]), ReadError>
    ensures { Gives (λ x. (x.0.now, x.1.now)) result (some_blanks_at text.now) }
{
    if !next_is_kind(Kind::Blank, text) {
        return Err(ReadError::Fault(text.len()));
    }
    Ok(run(Kind::Blank, text.len(), text))
}

/// The text behind the expected one. The fault is at the first byte that differs, or at the end of the text.
#[tactic(auto, using(crate::proofs::Loops::expects))]
pub fn expect<'a>(expected: &[u8], text: &'a [u8]) -> Result<&'a [u8], ReadError>
    ensures { Gives (λ rest. (tt, rest.now)) result (expect_at expected.now text.now) }
{
    let mut rest = text;
    for byte in expected {
        match rest {
            [] => return Err(ReadError::Fault(0)),
            [next, after @ ..] => {
                if *next != *byte {
                    return Err(ReadError::Fault(rest.len()));
                }
                rest = after;
            }
        }
    }
    Ok(rest)
}
