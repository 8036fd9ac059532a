ghost use Rattle.std.specs.Prelude.{◌≡◌, length};

use crate::history::Publishes;
use std::marker::Model;

/// What a publish tells: all that was published up to and with it. It has no bytes but a number, and may go to another
/// thread. Contracts see the list, and of which views it is.
#[derive(Drop)]
pub struct Told {
    past: Publishes,
    count: u64,
}

impl Model for Told {
    ghost use Rattle.std.specs.Prelude.{◌≡◌, length};
    ghost use Rattle.td_view.specs.Values.{ToldValue};

    ghost Value = { ToldValue };

    ghost view = { λ told. record { views = told.past.book; list = told.past.log } };

    ghost invariant = { λ told. told.count ≡ length told.past.log };
}

impl Told {
    pub(crate) fn new(past: Publishes, count: u64) -> Told
        requires { count ≡ length past.log }
        ensures { result ≡ record { views = past.book; list = past.log } }
    {
        Told { past, count }
    }

    /// The same once more. It takes no memory.
    pub fn again(&self) -> Told
        ensures { result ≡ self.now }
    {
        Told {
            past: self.past.again(),
            count: self.count,
        }
    }

    // The token and its number.
    pub(crate) fn parts(self) -> (Publishes, u64)
        ensures past { (result.0.book ≡ self.views) × (result.0.log ≡ self.list) }
        ensures count { result.1 ≡ length self.list }
    {
        let Told { past, count } = self;
        (past, count)
    }
}
