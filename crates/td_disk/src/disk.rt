ghost use Rattle.std.specs.Prelude.{◌≡◌, ◌+◌, ◌-◌, ◌≤◌, ℕ, Bool, true, false, List, length, take, drop, min, IfOk};
ghost use Rattle.std.specs.Prelude.{OnOk, OnErr};
ghost use Rattle.td_io.specs.Count.{Rose};
ghost use Rattle.td_disk.specs.Device.{overwritten, Torn, Follows, Only, Elapses};

use td_io::Failed;

/// How many bytes a disk has at most.
pub const MAX_DISK_LEN: usize = 1_073_741_824;

/// One file that outlives the program. What a crash leaves is told for each moment, within calls and between them.
pub trait Disk {
    // the bytes that a read gives
    ghost reads: { Self → List ℕ };

    // what a crash at this moment may leave
    ghost leaves: { Self → List ℕ → Type 0 };

    // the moment, a number that never falls
    ghost clock: { Self → ℕ };

    // what a crash at some moment from that one on may have left
    ghost left_since: { Self → ℕ → List ℕ → Type 0 };

    // how many calls failed
    ghost faults: { Self → ℕ };

    // no sync has failed: what was written before one that did may be lost, whatever later ones say
    ghost is_sound: { Self → Bool };

    // what a write of these bytes at a place makes of the disk, where it is done, and where it fails
    ghost writes: { Self → ℕ → List ℕ → Bool → Self → Type 0 };

    // what a sync makes of it, where it is done, and where it fails
    ghost syncs: { Self → Bool → Self → Type 0 };

    /// Reads from `at` on, and says how many bytes came: fewer than the buffer holds only at the end. Where it does not
    /// fail, nothing is seen to change.
    fn read(&mut self, at: usize, buf: &mut [u8]) -> Result<usize, Failed>
        ensures count { IfOk result (λ k. k ≡ min (length buf.old) (length (reads self.old) - at)) }
        ensures bytes { IfOk result (λ k. take k buf.new ≡ take k (drop at (reads self.old))) }
        ensures fits { (t : ℕ) (c : List ℕ) → left_since self.old t c → length c ≤ MAX_DISK_LEN }
        ensures same { OnOk result (self.new ≡ self.old) }
        ensures reads { reads self.new ≡ reads self.old }
        ensures sound { is_sound self.new ≡ is_sound self.old }
        ensures crash { (c : List ℕ) → leaves self.new c → leaves self.old c }
        ensures time { Elapses (clock self.old) (clock self.new) (left_since self.old) (left_since self.new)
            (leaves self.new) }
        ensures failed { OnErr result (Rose (faults self.old) (faults self.new)) }
        ensures faults { faults self.old ≤ faults self.new };

    /// Writes at `at`, over what is there and past the end. Until a sync, a crash may leave any bytes in the range, and
    /// what lies past the old end or not; so may a write that fails, which may also have changed what is read there. No
    /// byte beside the range is touched.
    fn write(&mut self, at: usize, bytes: &[u8]) -> Result<(), Failed>
        requires within { at ≤ length (reads self.old) }
        requires room { at + length bytes.now ≤ MAX_DISK_LEN }
        ensures written { OnOk result (reads self.new ≡ overwritten (reads self.old) at bytes.now) }
        ensures others { Torn at (length bytes.now) (reads self.old) (reads self.new) }
        ensures done { OnOk result (writes self.old at bytes.now true self.new) }
        ensures not_done { OnErr result (writes self.old at bytes.now false self.new) }
        ensures sound { is_sound self.new ≡ is_sound self.old }
        ensures crash { Follows (Torn at (length bytes.now)) (leaves self.old) (leaves self.new) }
        ensures time { Elapses (clock self.old) (clock self.new) (left_since self.old) (left_since self.new)
            (leaves self.new) }
        ensures failed { OnErr result (Rose (faults self.old) (faults self.new)) }
        ensures faults { faults self.old ≤ faults self.new };

    /// After it a crash leaves what a read gives, unless a sync failed: this one, or any before it.
    fn sync(&mut self) -> Result<(), Failed>
        ensures durable { OnOk result (is_sound self.old ≡ true → Only (reads self.old) (leaves self.new)) }
        ensures done { OnOk result (syncs self.old true self.new) }
        ensures not_done { OnErr result (syncs self.old false self.new) }
        ensures reads { reads self.new ≡ reads self.old }
        ensures sound { OnOk result (is_sound self.new ≡ is_sound self.old) }
        ensures unsound { OnErr result (is_sound self.new ≡ false) }
        ensures crash { (c : List ℕ) → leaves self.new c → leaves self.old c }
        ensures time { Elapses (clock self.old) (clock self.new) (left_since self.old) (left_since self.new)
            (leaves self.new) }
        ensures failed { OnErr result (Rose (faults self.old) (faults self.new)) }
        ensures faults { faults self.old ≤ faults self.new };

    // A process that dies leaves what it had written.
    ghost may_stay: { (disk : Self) → leaves disk (reads disk) };

    // This moment is one of those since an earlier one.
    ghost counts_now: { (disk : Self) (t : ℕ) (c : List ℕ) → t ≤ clock disk → leaves disk c → left_since disk t c };

    // Since this moment there is no other.
    ghost only_now: { (disk : Self) (c : List ℕ) → left_since disk (clock disk) c → leaves disk c };
}
