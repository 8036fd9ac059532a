ghost use Rattle.std.specs.Prelude.{◌≡◌, ◌≤◌, ◌<◌, ◌+◌, ◌-◌};
ghost use Rattle.std.specs.Option.{SomeIff};

use std::marker::Model;

/// The greatest number of a site.
pub const MAX_SITE: u8 = 64;

/// A site of the shared buffer, by its number from 1 to `MAX_SITE`. Contracts see the number.
#[derive(Clone, Copy, Debug, PartialEq, Eq, PartialOrd, Ord, Hash)]
pub struct Site {
    number: u8,
}

impl Model for Site {
    ghost use Rattle.std.specs.Prelude.{ℕ, ◌≤◌};
    ghost use Rattle.td_base.specs.declared.site.TheConstants.{MAX_SITE};

    ghost Value = { ℕ };

    ghost view = { λ s. s.number };

    ghost invariant = { λ s. (1 ≤ s.number) × (s.number ≤ MAX_SITE) };

    ghost inverse = { λ n. record { number = n } };
}

impl Site {
    /// The site with this number, where it is one.
    pub fn new(n: u8) -> Option<Site>
        ensures { SomeIff result ((1 ≤ n) × (n ≤ MAX_SITE)) n }
    {
        if n == 0 || n > MAX_SITE {
            return None;
        }
        Some(Site { number: n })
    }

    /// Its number, from 1 to `MAX_SITE`.
    pub fn number(self) -> u8
        ensures value { result ≡ self }
        ensures least { 1 ≤ self }
        ensures greatest { self ≤ MAX_SITE }
    {
        self.number
    }

    /// The site with this place, from 0, in what is kept site by site.
    pub fn at(place: u8) -> Site
        requires { place < MAX_SITE }
        ensures { result ≡ place + 1 }
    {
        Site { number: place + 1 }
    }

    /// Its place, from 0, in what is kept site by site.
    pub fn place(self) -> usize
        ensures place { result ≡ self - 1 }
        ensures least { 1 ≤ self }
        ensures within { result < MAX_SITE }
    {
        usize::from(self.number) - 1
    }
}
