ghost use Rattle.std.specs.Prelude.{◌≡◌, ◌≢◌, ◌^◌, ◌<◌, ◌≤◌, ℕ, IfSome, MatchOption, None, Some, bytes_eq};
ghost use Rattle.std.specs.Fmt.{decimal};
ghost use Rattle.td_reader.specs.Arguments.{long_at, number_at, number_of, ranged_at, short_at};

use crate::cursor::split_digits;
use itoa::Buffer;
use td_script::{MAX_DIGITS, number_of as few_digits};

/// A number that is at most `most`, and what is left behind it.
#[tactic(auto, unfolding(crate::specs::Arguments::number_at))]
pub(crate) fn number(bytes: &[u8], most: u64) -> Option<(u64, &[u8])>
    ensures read { let read = number_at most bytes.now in
        MatchOption result (read ≡ None) (λ found. read ≡ Some (found.0, found.1.now)) }
    ensures range { IfSome result (λ found. found.0 ≤ most) }
{
    let (digits, rest) = split_digits(bytes);
    let number = number_of(digits, most)?;
    Some((number, rest))
}

/// A number from `least` to `most`, and what is left behind it.
#[tactic(auto, unfolding(crate::specs::Arguments::ranged_at))]
pub(crate) fn ranged(bytes: &[u8], least: u64, most: u64) -> Option<(u64, &[u8])>
    ensures read { let read = ranged_at least most bytes.now in
        MatchOption result (read ≡ None) (λ found. read ≡ Some (found.0, found.1.now)) }
    ensures range { IfSome result (λ found. (least ≤ found.0) × (found.0 ≤ most)) }
{
    let (number, rest) = number(bytes, most)?;
    if number < least {
        return None;
    }
    Some((number, rest))
}

/// A number of 32 bits, and what is left behind it.
#[tactic(auto, unfolding(crate::specs::Arguments::short_at))]
pub(crate) fn short(bytes: &[u8]) -> Option<(u32, &[u8])>
    ensures { let read = short_at bytes.now in
        MatchOption result (read ≡ None) (λ found. read ≡ Some (found.0, found.1.now)) }
{
    let (number, rest) = number(bytes, u64::from(u32::MAX))?;
    Some((number as u32, rest))
}

/// A number of 64 bits, and what is left behind it.
#[tactic(auto, unfolding(crate::specs::Arguments::long_at))]
pub(crate) fn long(bytes: &[u8]) -> Option<(u64, &[u8])>
    ensures { let read = long_at bytes.now in
        MatchOption result (read ≡ None) (λ found. read ≡ Some (found.0, found.1.now)) }
{
    number(bytes, u64::MAX)
}

// The number that is written in these digits, where it is at most `most`. No sign and no zero stand in front of it.
fn number_of(digits: &[u8], most: u64) -> Option<u64>
    ensures value { result ≡ number_of most digits.now }
    ensures range { IfSome result (λ number. number ≤ most) }
{
    let number = written(digits)?;
    if number > most {
        return None;
    }
    Some(number)
}

// The number that is written in these digits. Nearly all of a trace have few.
fn written(digits: &[u8]) -> Option<u64>
    ensures { MatchOption result ((n : ℕ) → n < 2 ^ 64 → digits.now ≢ decimal n)
        (λ number. digits.now ≡ decimal number) }
{
    if digits.len() <= MAX_DIGITS {
        return Some(u64::from(few_digits(digits)?));
    }
    let number = parsed(digits)?;
    is_written(number, digits).then_some(number)
}

// Whether the number is written in these digits.
fn is_written(number: u64, digits: &[u8]) -> bool
    ensures { result ≡ bytes_eq (decimal number) digits.now }
{
    Buffer::new().format(number).as_bytes() == digits
}

// The number that these digits are, maybe with a sign or zeros in front.
fn parsed(digits: &[u8]) -> Option<u64>
    ensures { MatchOption result ((n : ℕ) → n < 2 ^ 64 → digits.now ≢ decimal n)
        (λ number. (n : ℕ) → n < 2 ^ 64 → digits.now ≡ decimal n → number ≡ n) }
{
    let Ok(text) = str::from_utf8(digits) else {
        return None;
    };
    text.parse().ok()
}
