ghost use Rattle.std.specs.Prelude.{◌≡◌, ◌≢◌, ◌<◌, ◌^◌, ◌↔◌, ℕ, IfNone, IfSome, IsTrue};
ghost use Rattle.std.specs.Fmt.{decimal};

/// The greatest number of digits of a number.
pub const MAX_DIGITS: usize = 9;

/// The number that is written in these digits: `0`, or a digit from 1 to 9 and others, up to `MAX_DIGITS`.
pub fn number_of(digits: &[u8]) -> Option<u32>
    ensures some { IfSome result (λ n. (n < 10 ^ MAX_DIGITS) × (digits.now ≡ decimal n)) }
    ensures none { IfNone result ((n : ℕ) → n < 10 ^ MAX_DIGITS → digits.now ≢ decimal n) }
{
    if !is_number(digits) {
        return None;
    }
    let mut value = 0;
    for digit in digits {
        value = 10 * value + u32::from(digit - b'0');
    }
    Some(value)
}

fn is_number(digits: &[u8]) -> bool
    ensures { IsTrue result ↔ ((n : ℕ) × (n < 10 ^ MAX_DIGITS) × (digits.now ≡ decimal n)) }
{
    match digits.first() {
        None => false,
        Some(b'0') => digits.len() == 1,
        Some(_) => digits.len() <= MAX_DIGITS && digits.iter().all(|digit| digit.is_ascii_digit()),
    }
}
