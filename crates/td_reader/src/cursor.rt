// Reading from the front of bytes: each reader answers what it read and what is left behind it.
ghost use Rattle.std.specs.Prelude.{◌≡◌, ◌≤◌, ◌<◌, ℕ, MatchOption, None, Some, false, true, length, slice_index};
ghost use Rattle.std.specs.Char.{is_ascii_digit};
ghost use Rattle.td_reader.specs.Arguments.{cut_digits};
ghost use Rattle.td_reader.specs.Reading.{after};

/// What stands behind the word, where the bytes begin with it.
pub(crate) fn behind<'a>(bytes: &'a [u8], word: &[u8]) -> Option<&'a [u8]>
    ensures { let read = after word.now bytes.now in
        MatchOption result (read ≡ None) (λ rest. read ≡ Some rest.now) }
{
    bytes.strip_prefix(word)
}

/// The digits at the front, and what is left behind them.
pub(crate) fn split_digits(bytes: &[u8]) -> (&[u8], &[u8])
    ensures { cut_digits bytes.now ≡ (result.0.now, result.1.now) }
{
    bytes.split_at(digits_len(bytes))
}

// How many digits stand at the front.
fn digits_len(bytes: &[u8]) -> usize
    ensures within { result ≤ length bytes.now }
    ensures digits { (k : ℕ) → k < result → is_ascii_digit (slice_index bytes.now k) ≡ true }
    ensures end { result < length bytes.now → is_ascii_digit (slice_index bytes.now result) ≡ false }
{
    for (at, byte) in bytes.iter().enumerate() {
        if !byte.is_ascii_digit() {
            return at;
        }
    }
    bytes.len()
}
