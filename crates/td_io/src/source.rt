ghost use Rattle.std.specs.Prelude.{◌≡◌, ◌<◌, ◌≤◌, ℕ, List, Option, Ok, length, take, IfOk, OnErr};
ghost use Rattle.std.specs.Io.KnownBytes.{Consumes, IsAtEnd, Keeps};
ghost use Rattle.td_io.specs.Count.{Rose, counted, end_found};

use crate::fault::Failed;

/// Gives bytes.
pub trait Source {
    // the bytes still to come, where they are told
    ghost left: { Self → Option (List ℕ) };

    // how many calls were made
    ghost calls: { Self → ℕ };

    // how many calls failed
    ghost faults: { Self → ℕ };

    // the number of the first call that found the end
    ghost end: { Self → Option ℕ };

    /// Puts the next bytes at the front of `buf`, and says how many they are: 0 at the end of the input.
    fn take(&mut self, buf: &mut [u8]) -> Result<usize, Failed>
        requires { 0 < length buf.old }
        ensures within { IfOk result (λ k. k ≤ length buf.new) }
        ensures gives { IfOk result (λ k. Consumes (left self.old) (left self.new) (take k buf.new)) }
        ensures at_end { result ≡ Ok 0 → IsAtEnd (left self.old) }
        ensures failed { OnErr result (Rose (faults self.old) (faults self.new)) }
        ensures kept { OnErr result (Keeps (left self.old) (left self.new)) }
        ensures count { faults self.old ≤ faults self.new }
        ensures called { calls self.new ≡ counted (calls self.old) }
        ensures found { IfOk result (λ k. end self.new ≡ end_found (end self.old) (calls self.new) k) }
        ensures searched { OnErr result (end self.new ≡ end self.old) };
}

// The number of the first call that found the end, once this call gave so many bytes.
pub(crate) fn end_found(end: Option<u64>, call: u64, given: usize) -> Option<u64>
    ensures { result ≡ end_found end call given }
{
    match end {
        None if given == 0 => Some(call),
        _ => end,
    }
}
