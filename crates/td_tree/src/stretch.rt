ghost use Rattle.std.specs.Prelude.{◌≡◌, ◌<◌, ◌≤◌, ◌+◌, ◌-◌, ◌/◌, ◌^◌, if◌then◌else◌, nat_lt};

/// A part of an array: so many rows from a place on.
#[derive(Clone, Copy, Debug, PartialEq, Eq)]
pub struct Stretch {
    pub array: u32,
    pub from: u32,
    pub len: u32,
}

impl Stretch {
    /// The place of its middle row, which is the top of the rows as an array.
    pub fn middle(self) -> u32
        requires { self.from + self.len < 2 ^ 32 }
        ensures { result ≡ self.from + self.len / 2 }
    {
        self.from + self.len / 2
    }

    /// What stands before its middle.
    pub fn before(self) -> Stretch
        ensures { result ≡ record { array = self.array; from = self.from; len = self.len / 2 } }
    {
        Stretch {
            array: self.array,
            from: self.from,
            len: self.len / 2,
        }
    }

    /// What stands after its middle.
    pub fn after(self) -> Stretch
        requires few { self.from + self.len < 2 ^ 32 }
        requires some { 0 < self.len }
        ensures { result ≡ record {
          array = self.array;
          from = self.from + self.len / 2 + 1;
          len = self.len - self.len / 2 - 1;
        } }
    {
        let half = self.len / 2;
        Stretch {
            array: self.array,
            from: self.from + half + 1,
            len: self.len - half - 1,
        }
    }

    /// What stands on the side of its middle on which an index is.
    pub fn half_with(self, index: u32) -> Stretch
        requires few { self.from + self.len < 2 ^ 32 }
        requires some { 0 < self.len }
        ensures { result ≡ (if nat_lt index (self.from + self.len / 2)
            then record { array = self.array; from = self.from; len = self.len / 2 }
            else record {
              array = self.array;
              from = self.from + self.len / 2 + 1;
              len = self.len - self.len / 2 - 1;
            }) }
    {
        if index < self.middle() {
            self.before()
        } else {
            self.after()
        }
    }

    /// How many tokens stand before that half where the row in the middle is opened: its bracket, and with the half
    /// before it and the row itself three.
    pub fn tokens_before_half(self, index: u32) -> usize
        requires { self.from + self.len < 2 ^ 32 }
        ensures { result ≡ (if nat_lt index (self.from + self.len / 2) then 1 else 3) }
    {
        if index < self.middle() { 1 } else { 3 }
    }
}
