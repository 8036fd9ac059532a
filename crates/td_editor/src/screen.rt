ghost use Rattle.std.specs.Prelude.{◌≡◌, ℕ, List, OnOk};
ghost use Rattle.td_op.specs.declared.change.Change.{Change};
ghost use Rattle.td_op.specs.Change.{changed};
ghost use Rattle.td_editor.specs.Screens.{IsInRange};

use td_base::Memory;
use td_op::Change;

/// What hears of each change of the atoms shown: a widget, or what stands between it and the editor.
pub trait Screen: Sized + Drop {
    /// What contracts see of it. No value of it is made. For a list write an array, as `[Atom; 0]`.
    type State;

    /// All but spare room.
    ghost state: { Self → Self.State };

    /// What it is when it has heard of a change.
    ghost heard: { Self.State → Change → Self.State };

    /// It shows these atoms.
    ghost shows: { Self.State → List (List ℕ) → Type 0 };

    /// It has room for any one change.
    ghost has_room: { Self → Type 0 };

    /// Makes room for one change.
    fn reserve(&mut self) -> Result<(), Memory>
        ensures same { state self.new ≡ state self.old }
        ensures room { OnOk result (has_room self.new) };

    /// Hears of a change. It takes no memory: there is room.
    fn change(&mut self, change: &Change)
        requires range { IsInRange shows (state self.old) change.now }
        requires room { has_room self.old }
        ensures { state self.new ≡ heard (state self.old) change.now };

    ghost follows: { (s : Self.State) (atoms : List (List ℕ)) (change : Change) → shows s atoms
        → shows (heard s change) (changed change atoms) };
}
