ghost use Rattle.std.specs.Prelude.{◌≡◌, ◌<◌, ◌∷◌, length};

use std::marker::Model;
use td_view::Reader;

// The readers of a site for which there is no editor yet. Contracts see a list.
#[derive(Drop)]
pub(crate) struct Readers {
    pub(crate) all: Vec<Reader>,
}

impl Model for Readers {
    ghost use Rattle.std.specs.Prelude.{List};
    ghost use Rattle.td_view.specs.Values.{ReaderValue};

    ghost Value = { List ReaderValue };

    ghost view = { λ r. r.all.items };
}

impl Readers {
    pub(crate) fn of(all: Vec<Reader>) -> Readers
        ensures { result ≡ all.items }
    {
        Readers { all }
    }

    // Takes out the first.
    pub(crate) fn take_first(&mut self) -> Reader
        requires { 0 < length self.old }
        ensures { self.old ≡ result ∷ self.new }
    {
        self.all.remove(0)
    }
}
