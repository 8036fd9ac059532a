// Where a row is, in little room.
ghost use Rattle.std.specs.Prelude.{◌≡◌};
ghost use Rattle.td_tree.specs.KeptState.{FitsKept};

use crate::tree_row::RowState;
use std::marker::Model;

// So many arrays have numbers.
pub const MOST_ARRAYS: u32 = u32::MAX - 1;

// The two numbers that no array has stand for the other cases.
const NODE: u32 = MOST_ARRAYS;

const GONE: u32 = u32::MAX;

/// Where a row is, in 8 bytes. Contracts see it as it was.
#[derive(Drop)]
pub struct KeptState {
    // the array, or the number that stands for another case
    array: u32,
    // the index in it; 0 where there is none
    index: u32,
}

impl Model for KeptState {
    ghost use Rattle.td_tree.specs.declared.tree_row.RowState.{RowState};
    ghost use Rattle.td_tree.specs.KeptState.{state_of};

    ghost Value = { RowState };

    ghost view = { λ k. state_of k.array k.index };
}

impl KeptState {
    /// The state, kept.
    pub fn of(state: RowState) -> KeptState
        requires { FitsKept state }
        ensures { result ≡ state }
    {
        match state {
            RowState::Node => KeptState {
                array: NODE,
                index: 0,
            },
            RowState::InArray { array, index } => KeptState { array, index },
            RowState::Gone => KeptState {
                array: GONE,
                index: 0,
            },
        }
    }

    /// The state that it is.
    pub fn state(&self) -> RowState
        ensures { result ≡ self.now }
    {
        let KeptState { array, index } = *self;
        if array == GONE {
            return RowState::Gone;
        }
        if array == NODE {
            return RowState::Node;
        }
        RowState::InArray { array, index }
    }
}
