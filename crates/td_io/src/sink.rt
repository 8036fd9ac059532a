ghost use Rattle.std.specs.Prelude.{◌≡◌, ◌<◌, ◌≤◌, ℕ, List, Option, length, take, IfOk, OnErr};
ghost use Rattle.std.specs.Io.KnownBytes.{Appends, Keeps};
ghost use Rattle.td_io.specs.Count.{Rose};

use crate::fault::Failed;

/// Takes bytes.
pub trait Sink {
    // the bytes taken so far, where they are told
    ghost held: { Self → Option (List ℕ) };

    // how many calls failed
    ghost faults: { Self → ℕ };

    /// Takes the first of these bytes, at least one, and says how many they are. To take none of them is a fault.
    fn put(&mut self, bytes: &[u8]) -> Result<usize, Failed>
        requires { 0 < length bytes.now }
        ensures some { IfOk result (λ k. 0 < k) }
        ensures within { IfOk result (λ k. k ≤ length bytes.now) }
        ensures takes { IfOk result (λ k. Appends (held self.old) (held self.new) (take k bytes.now)) }
        ensures failed { OnErr result (Rose (faults self.old) (faults self.new)) }
        ensures kept { OnErr result (Keeps (held self.old) (held self.new)) }
        ensures count { faults self.old ≤ faults self.new };
}
