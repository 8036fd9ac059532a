ghost use Rattle.std.specs.Prelude.{◌≡◌, slice_get};
ghost use Rattle.td_idle.specs.Walk.{is_id, walk_on};

use td_base::AtomId;

/// Where a walk over the rows is: how many of the unknown rows it passed, and how many of the rows that come next are
/// in the last top.
#[derive(Clone, Copy, Debug)]
pub struct Walk {
    pub passed: usize,
    pub inside: u32,
}

impl Walk {
    /// Before the first row.
    pub fn new() -> Walk
        ensures { result ≡ record { passed = 0; inside = 0 } }
    {
        Walk {
            passed: 0,
            inside: 0,
        }
    }

    /// The next unknown row.
    pub fn next(&self, unknown: &[AtomId]) -> Option<AtomId>
        ensures { result ≡ slice_get unknown.now self.now.passed }
    {
        unknown.get(self.passed).copied()
    }

    /// Passes the next row.
    pub fn pass(&mut self, unknown: &[AtomId], id: AtomId)
        ensures { self.new ≡ walk_on unknown.now id self.old }
    {
        self.inside = self.inside.saturating_sub(1);
        if self.is_at(unknown, id) {
            self.passed += 1;
        }
    }

    // Whether the next unknown row is this one.
    fn is_at(&self, unknown: &[AtomId], id: AtomId) -> bool
        ensures { result ≡ is_id id (slice_get unknown.now self.now.passed) }
    {
        match unknown.get(self.passed) {
            Some(next) => *next == id,
            None => false,
        }
    }
}
