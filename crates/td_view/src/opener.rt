ghost use Rattle.std.specs.Prelude.{◌≡◌};
ghost use Rattle.td_view.specs.Values.{one_more};

use crate::refusals::raised;
use std::marker::Model;

/// Counts how often a reader was refused while views were opened. Contracts see the count, which stands still at
/// `u64::MAX`.
#[derive(Drop)]
pub struct Opener {
    refusals: u64,
}

impl Model for Opener {
    ghost use Rattle.std.specs.Prelude.{ℕ};

    ghost Value = { ℕ };

    ghost view = { λ opener. opener.refusals };
}

impl Opener {
    /// No refusal.
    pub fn new() -> Opener
        ensures { result ≡ 0 }
    {
        Opener { refusals: 0 }
    }

    /// How often a reader was refused. Only `views` raises it.
    pub fn refused(&self) -> u64
        ensures { result ≡ self.now }
    {
        self.refusals
    }

    pub(crate) fn refuse(&mut self)
        ensures { self.new ≡ one_more self.old }
    {
        self.refusals = raised(self.refusals);
    }
}
