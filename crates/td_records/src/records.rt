ghost use Rattle.std.specs.Prelude.{◌≡◌, ◌≢◌, ◌+◌, ◌<◌, ◌≤◌, ◌^◌, ◌++◌, ◌∷◌, ◌↔◌, ℕ, List, length, take, drop, IfSome, IfNone, IsTrue};
ghost use Rattle.td_records.specs.Records.{record_of, records_of, IsShort, AreShort, StandFor};

/// How many bytes the body of the record at the front has; None where no whole record is there. The body stands behind
/// the gate and the two bytes of the length.
pub fn record_len(bytes: &[u8]) -> Option<usize>
    ensures within { IfSome result (λ n. 3 + n ≤ length bytes.now) }
    ensures short { IfSome result (λ n. n < 2 ^ 16) }
    ensures is { IfSome result (λ n. bytes.now ≡ record_of (take n (drop 3 bytes.now)) ++ drop (3 + n) bytes.now) }
    ensures none { IfNone result ((body rest : List ℕ) → IsShort body → bytes.now ≢ record_of body ++ rest) }
{
    match bytes {
        [1, high, low, rest @ ..] => {
            let len = usize::from(u16::from_be_bytes([*high, *low]));
            (len <= rest.len()).then_some(len)
        }
        _ => None,
    }
}

/// Whether a closed gate is at the front.
pub fn is_closed(bytes: &[u8]) -> bool
    ensures { IsTrue result ↔ ((gate : ℕ) × (rest : List ℕ) × (gate ≢ 1) × (bytes.now ≡ gate ∷ rest)) }
{
    match bytes {
        [gate, ..] => *gate != 1,
        [] => false,
    }
}

/// The place of the closed gate behind whole records; None where the bytes stand for no records.
pub fn records_end(bytes: &[u8]) -> Option<usize>
    ensures found { IfSome result (λ end. (bodies : List (List ℕ)) × AreShort bodies × StandFor bodies bytes.now
        × (end ≡ length (records_of bodies))) }
    ensures none { IfNone result ((bodies : List (List ℕ)) → AreShort bodies → ¬ StandFor bodies bytes.now) }
{
    let mut rest = bytes;
    while let Some(len) = record_len(rest) {
        rest = rest.split_at(3 + len).1;
    }
    if is_closed(rest) {
        return Some(bytes.len() - rest.len());
    }
    None
}
