// A family with a commit, written out, and what the laws say of it, computed by the definitions.
ghost use Rattle.std.specs.Prelude.{◌≡◌, [], ◌∷◌, take, codes};
ghost use Rattle.td_base.specs.declared.bit.Bit.TheVariants.{Right};
ghost use Rattle.td_path.specs.declared.slot.Slot.TheVariants.{At};
ghost use Rattle.td_op.specs.declared.body.Body.TheVariants.{Propose, Commit};
ghost use Rattle.td_machine.specs.History.{IsConsistent, history, log_of, machine, machine_after};
ghost use Rattle.td_machine.specs.Stage.{atom_id, dot, family_after};
ghost use Rattle.td_machine.specs.Examples.{used_again};
ghost use Rattle.td_order.specs.Example.{op};
ghost use Rattle.td_order.specs.Order.{order};
ghost use Rattle.td_order.specs.Show.{show};
ghost use Rattle.td_law_logs.specs.Logs.{IsCommit};
ghost use Rattle.td_law_logs.specs.AllOps.{all_ops};
ghost use Rattle.td_law_convergence.specs.Promises.{row_ids};

/// A slot is used, emptied by a flatten to which both sites said Yes, and used again by both at once. The histories
/// are a consistent family. Its one order has the deleted atom y (1.2) behind those that were put in its slot later,
/// as both knew it; a site that has not taken the commit still has y as a row, in its place of the one order.
pub fn a_slot_used_again_in_one_order()
    ensures consistent { IsConsistent (family_after 2 used_again) }
    ensures commit { IsCommit (family_after 2 used_again) (op 1 5 (4 ∷ 0 ∷ []) (Commit (dot 1 4)))
        (op 1 4 (3 ∷ 0 ∷ []) (Propose (At (atom_id 1 1 0) Right))) (At (atom_id 1 1 0) Right) }
    ensures order { order (all_ops (family_after 2 used_again)) ≡
        atom_id 1 1 0 ∷ atom_id 1 6 0 ∷ atom_id 2 1 0 ∷ atom_id 1 2 0 ∷ [] }
    ensures first { row_ids (machine (family_after 2 used_again) 1) ≡
        atom_id 1 1 0 ∷ atom_id 1 6 0 ∷ atom_id 2 1 0 ∷ [] }
    ensures second { row_ids (machine (family_after 2 used_again) 2) ≡
        atom_id 1 1 0 ∷ atom_id 1 6 0 ∷ atom_id 2 1 0 ∷ [] }
    ensures before { row_ids (machine_after (family_after 2 used_again) 2
        (take 4 (history (family_after 2 used_again) 2))) ≡ atom_id 1 1 0 ∷ atom_id 1 2 0 ∷ [] }
    ensures shown { show (log_of (family_after 2 used_again) 1) ≡ codes "xpq" }
    ensures same { show (log_of (family_after 2 used_again) 2) ≡ codes "xpq" }
{}
