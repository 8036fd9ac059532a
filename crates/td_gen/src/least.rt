ghost use Rattle.std.specs.Prelude.{◌≡◌, ◌≤◌};
ghost use Rattle.td_gen.specs.Generator.{joined, least_at, with_least};
ghost use Rattle.td_gen.specs.Growth.{AreWithin};
ghost use Rattle.td_gen.specs.declared.generator.TheConstants.{MAX_SIZE, SITES};

use crate::generator::SITES;
use td_base::Site;

/// How many atoms texts have at least.
#[derive(Clone, Copy, Debug, PartialEq, Eq)]
pub(crate) struct Least {
    /// The text that all sites had when they last settled.
    pub shared: u32,
    /// The text of each site now.
    pub sites: [u32; SITES as usize],
}

impl Least {
    /// How many atoms the text of the site has at least.
    pub(crate) fn at(&self, site: Site) -> u32
        requires { site ≤ SITES }
        ensures { result ≡ least_at self.now site }
    {
        self.sites[site.place()]
    }

    /// The same with another number for the site.
    pub(crate) fn set(&mut self, site: Site, least: u32)
        requires { site ≤ SITES }
        ensures { self.new ≡ with_least self.old site least }
    {
        self.sites[site.place()] = least;
    }

    /// Once all sites have all edits, they share what each of them added, without what each of them took.
    pub(crate) fn join(&mut self)
        requires { AreWithin MAX_SIZE self.old }
        ensures { self.new ≡ joined self.old }
    {
        let sum = self.sites[0] + self.sites[1] + self.sites[2];
        self.shared = sum.saturating_sub(2 * self.shared);
        self.sites = [self.shared; SITES as usize];
    }
}
