// Where many rows are from now on.
ghost use Rattle.std.specs.Prelude.{◌≡◌, ◌≢◌, ◌<◌, ◌^◌, ℕ, length, get_or};
ghost use Rattle.td_base.specs.Lists.{In};
ghost use Rattle.td_tree.specs.declared.kept_state.TheConstants.{MOST_ARRAYS};
ghost use Rattle.td_tree.specs.declared.tree_row.RowState.TheVariants.{InArray, Gone};
ghost use Rattle.td_tree.specs.Ways.{node_states};

use crate::kept_state::KeptState;
use crate::tree_row::{RowState, set_state};

/// These rows are gone.
pub fn bury(states: &mut Vec<KeptState>, numbers: &[u32])
    requires { (r : ℕ) → In r numbers.now → r < length states.old.items }
    ensures long { length states.new.items ≡ length states.old.items }
    ensures gone { (r : ℕ) → In r numbers.now → get_or states.new.items r Gone ≡ Gone }
    ensures others { (r : ℕ) → (In r numbers.now → ⊥)
        → get_or states.new.items r Gone ≡ get_or states.old.items r Gone }
{
    for k in 0..numbers.len() {
        set_state(states, numbers[k], RowState::Gone);
    }
}

/// These rows are nodes.
pub fn make_nodes(states: &mut Vec<KeptState>, numbers: &[u32])
    requires { (r : ℕ) → In r numbers.now → r < length states.old.items }
    ensures { states.new.items ≡ node_states numbers.now states.old.items }
{
    for k in 0..numbers.len() {
        set_state(states, numbers[k], RowState::Node);
    }
}

/// These rows are an array.
pub fn gather(states: &mut Vec<KeptState>, array: u32, numbers: &[u32])
    requires array { array < MOST_ARRAYS }
    requires known { (r : ℕ) → In r numbers.now → r < length states.old.items }
    requires apart { (i j : ℕ) → i < length numbers.now → j < length numbers.now
        → get_or numbers.now i 0 ≡ get_or numbers.now j 0 → i ≡ j }
    requires few { length numbers.now < 2 ^ 32 }
    ensures long { length states.new.items ≡ length states.old.items }
    ensures inside { (j : ℕ) → j < length numbers.now
        → get_or states.new.items (get_or numbers.now j 0) Gone ≡ InArray array j }
    ensures others { (r : ℕ) → (In r numbers.now → ⊥)
        → get_or states.new.items r Gone ≡ get_or states.old.items r Gone }
{
    for k in 0..numbers.len() {
        set_state(
            states,
            numbers[k],
            RowState::InArray {
                array,
                index: k as u32,
            },
        );
    }
}
