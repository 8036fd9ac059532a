// Bytes in hex: two digits for each, in small letters.
ghost use Rattle.std.specs.Prelude.{◌≡◌, ◌≤◌, IfSome};
ghost use Rattle.td_script.specs.Answers.{IsLineAnswer};
ghost use Rattle.td_script.specs.Hex.{bytes_of, byte_of, digit_of};

use crate::kind::{Kind, LineFault};
use std::alloc::Global;
use td_base::Bytes;

/// The bytes that the word is in hex.
pub(crate) fn hex_word(alloc: Global, word: &str) -> Result<Bytes, LineFault>
    ensures { IsLineAnswer (bytes_of word.now) result }
{
    let mut bytes = Bytes::new(alloc);
    let mut rest = word.as_bytes();
    while let [high, low, behind @ ..] = rest {
        let byte = byte_of(*high, *low).ok_or(Kind::Number)?;
        bytes.push(&[byte])?;
        rest = behind;
    }
    if !rest.is_empty() {
        return Err(LineFault::Faulty(Kind::Number));
    }
    Ok(bytes)
}

// The byte that has these digits.
fn byte_of(high: u8, low: u8) -> Option<u8>
    ensures { result ≡ byte_of (digit_of high) (digit_of low) }
{
    Some(16 * digit_of(high)? + digit_of(low)?)
}

// The value of a digit.
fn digit_of(digit: u8) -> Option<u8>
    ensures value { result ≡ digit_of digit }
    ensures small { IfSome result (λ value. value ≤ 15) }
{
    match digit {
        b'0'..=b'9' => Some(digit - b'0'),
        b'a'..=b'f' => Some(digit - b'a' + 10),
        _ => None,
    }
}
