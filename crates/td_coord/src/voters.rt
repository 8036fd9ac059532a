ghost use Rattle.std.specs.Prelude.{◌≡◌, ◌<◌, ◌≤◌, [], ◌∷◌, ◌==◌, ℕ, length};
ghost use Rattle.std.specs.List.{list_any};

use std::marker::Model;
use td_base::{MAX_SITE, Site};

const PLACES: usize = MAX_SITE as usize;

/// The sites whose Yes is counted, at most `MAX_SITE`. Contracts see their list, the newest first.
#[derive(Debug, Drop)]
pub struct Voters {
    count: u8,
    // in the order in which they were counted; the places from the count on are not in use
    sites: [Site; PLACES],
}

impl Model for Voters {
    ghost use Rattle.std.specs.Prelude.{ℕ, ◌≡◌, ◌≤◌, List, length, take, reverse};
    ghost use Rattle.td_base.specs.declared.site.TheConstants.{MAX_SITE};

    ghost Value = { List ℕ };

    ghost view = { λ v. reverse (take v.count v.sites) };

    ghost invariant = { λ v. (v.count ≤ MAX_SITE) × (length v.sites ≡ MAX_SITE) };
}

impl Voters {
    /// One site.
    pub fn new(site: Site) -> Voters
        ensures { result ≡ site ∷ [] }
    {
        Voters {
            count: 1,
            sites: [site; PLACES],
        }
    }

    /// How many they are.
    pub fn len(&self) -> u8
        ensures len { result ≡ length self.now }
        ensures few { result ≤ MAX_SITE }
    {
        self.count
    }

    /// Whether the site is one of them.
    pub fn contains(&self, site: Site) -> bool
        ensures { result ≡ list_any (λ (other : ℕ). site == other) self.now }
    {
        self.sites[..self.count as usize].contains(&site)
    }

    /// Adds a site.
    pub fn add(&mut self, site: Site)
        requires { length self.old < MAX_SITE }
        ensures { self.new ≡ site ∷ self.old }
    {
        self.sites[self.count as usize] = site;
        self.count += 1;
    }
}
