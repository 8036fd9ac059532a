ghost use Rattle.std.specs.Prelude.{◌≡◌, ◌<◌, ◌++◌, ◌∷◌, [], vec_len, vec_capacity};

use crate::screen::Screen;
use std::alloc::Global;
use td_base::Memory;
use td_op::Change;

/// A screen for a widget elsewhere: the changes that are still to be made there, in order. `Editor::replace` takes them
/// out.
#[derive(Drop)]
pub struct Feed {
    changes: Vec<Change>,
}

impl Feed {
    /// No changes. It takes no memory.
    pub fn new(alloc: Global) -> Feed
        ensures { result.changes.items ≡ [] }
    {
        Feed {
            changes: Vec::new(alloc),
        }
    }

    /// The changes, the first first.
    pub fn changes(&self) -> &[Change]
        ensures { result.now ≡ self.now.changes.items }
    {
        &self.changes
    }
}

impl Screen for Feed {
    type State = [Change; 0];

    ghost state = { λ f. f.changes.items };

    ghost heard = { λ changes change. changes ++ change ∷ [] };

    ghost shows = { λ _ _. Unit {0} };

    ghost has_room = { λ f. vec_len f.changes < vec_capacity f.changes };

    fn reserve(&mut self) -> Result<(), Memory> {
        self.changes.reserve(1)?;
        Ok(())
    }

    fn change(&mut self, change: &Change) {
        self.changes.push_reserved(*change);
    }

    ghost follows = { λ _ _ _ _. tt };
}
