// What is kept by numbers is what waits in the machine.
ghost use Rattle.std.specs.Prelude.{◌≡◌, ℕ, List, ◌++◌, Some, slice_get};
ghost use Rattle.td_base.specs.Value.{DotValue};
ghost use Rattle.td_op.specs.Op.{OpValue};
ghost use Rattle.td_machine.specs.Ready.{put_waiting, without, waits};
ghost use Rattle.td_causal.specs.Waiting.{Numbers, ops_waiting, put_in_order, others_than, is_kept, AreStored};

/// Stored operations are kept and taken away as the machine does it, and stay what they are where more are stored.
#[tactic(auto, using(crate::proofs::Kept::as_in_the_machine))]
pub fn what_waits_is_as_in_the_machine()
    ensures put { (n : ℕ) (ops : List OpValue) (k : ℕ) (x : OpValue) (waiting : Numbers)
        → AreStored n ops waiting → slice_get ops k ≡ Some x
        → ops_waiting ops (put_in_order (x.dot, k) waiting) ≡ put_waiting x (ops_waiting ops waiting) }
    ensures removed { (n : ℕ) (ops : List OpValue) (d : DotValue) (waiting : Numbers) → AreStored n ops waiting
        → ops_waiting ops (others_than d waiting) ≡ without d (ops_waiting ops waiting) }
    ensures waits { (n : ℕ) (ops : List OpValue) (d : DotValue) (waiting : Numbers) → AreStored n ops waiting
        → is_kept d waiting ≡ waits d (ops_waiting ops waiting) }
    ensures stored { (n : ℕ) (ops : List OpValue) (more : List OpValue) (waiting : Numbers) → AreStored n ops waiting
        → ops_waiting (ops ++ more) waiting ≡ ops_waiting ops waiting }
{}
