//! Reading decimal numbers.

ghost use Rattle.std.specs.Prelude.{◌≡◌};
ghost use Rattle.grammar.specs.Reading.{Gives};
ghost use Rattle.grammar.specs.Numbers.{digits_at, may_grow, number_at, with_digit};

use crate::fault::ReadError;

/// A decimal number that is at most so great, without sign and without leading zeros, and the text behind it. Where a
/// further digit would make it too great, the number ends before it.
#[tactic(auto, unfolding(crate::specs::Numbers::number_at))]
pub fn read_number(most: u64, text: &[u8]) -> Result<(u64, &[u8]), ReadError>
    ensures { Gives (λ x. (x.0, x.1.now)) result (number_at most text.now) }
{
    match text {
        [] => Err(ReadError::Fault(0)),
        [first, rest @ ..] => {
            if *first == b'0' {
                return Ok((0, rest));
            }
            if !may_grow(most, 0, *first) {
                return Err(ReadError::Fault(text.len()));
            }
            Ok(digits(most, (*first - b'0') as u64, rest))
        }
    }
}

/// Whether the byte is a digit, and the number isn't too great with it.
fn may_grow(most: u64, number: u64, byte: u8) -> bool
    ensures { result ≡ may_grow most number byte }
{
    byte.is_ascii_digit() && number as u128 * 10 + (byte - b'0') as u128 <= most as u128
}

/// The number whose first digits are those of the given one, and the text behind it.
#[tactic(auto, using(crate::proofs::Loops::digits))]
fn digits(most: u64, first: u64, text: &[u8]) -> (u64, &[u8])
    ensures { (result.0, result.1.now) ≡ digits_at most first text.now }
{
    let mut number = first;
    for i in 0..text.len() {
        if !may_grow(most, number, text[i]) {
            return (number, &text[i..]);
        }
        number = number * 10 + (text[i] - b'0') as u64;
    }
    (number, &text[text.len()..])
}
