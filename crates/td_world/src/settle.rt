ghost use Rattle.std.specs.Prelude.{◌≡◌, ◌≤◌, IfOk, OnOk, OnErr};
ghost use Rattle.td_base.specs.declared.site.TheConstants.{MAX_SITE};
ghost use Rattle.td_world.specs.World.{IsWorld, size, moved_all};
ghost use Rattle.td_world.specs.Calls.{pass, passes, count_given, IsStopped, IsSettled, IsUnsettled};
ghost use Rattle.td_world.specs.Promises.{NobodyReady, SameVectors, AllDecided, IsPromised};

use crate::world::World;
use td_base::{Memory, Site};
use td_doc::Doc;

impl<D: Doc> World<D> {
    /// Gives each site all that it does not know, again and again, until there is nothing more to give; how many
    /// messages were given is answered. It makes four passes at most where nobody was ready, and twice as many as
    /// there are sites and three in any world.
    pub fn settle(&mut self) -> Result<u64, Memory>
        ensures given { IfOk result (λ given. IsSettled self.old self.new given) }
        ensures three { IfOk result (λ given. NobodyReady self.old
            → (self.new ≡ moved_all (passes 3 self.old) self.old) × (given ≡ count_given (passes 3 self.old))) }
        ensures vectors { OnOk result (NobodyReady self.old → SameVectors self.new) }
        ensures decided { OnOk result (NobodyReady self.old → AllDecided self.new) }
        ensures nobody { OnOk result (NobodyReady self.old → NobodyReady self.new) }
        ensures err { OnErr result (IsUnsettled self.old self.new) }
        ensures world { IsWorld self.new }
        ensures promises { IsPromised self.new }
    {
        let sites = self.size();
        let mut given = 0;
        for _ in 0..2 * sites + 3 {
            let more = self.pass(sites)?;
            let still = more == 0;
            if still {
                return Ok(given);
            }
            given += more;
        }
        Ok(given)
    }

    // Gives each of so many sites all that it does not know, once.
    fn pass(&mut self, sites: u8) -> Result<u64, Memory>
        requires all { sites ≡ size self.old }
        requires few { sites ≤ MAX_SITE }
        requires world { IsWorld self.old }
        ensures count { IfOk result (λ count. count ≡ count_given (pass self.old)) }
        ensures few { IfOk result (λ count. count ≤ 17_179_607_040) }
        ensures ok { OnOk result (self.new ≡ moved_all (pass self.old) self.old) }
        ensures err { OnErr result (IsStopped (pass self.old) self.old self.new) }
        ensures world { IsWorld self.new }
    {
        let mut count = 0;
        for place in 0..sites {
            let given = self.give_each(Site::at(place))?;
            count += given;
        }
        Ok(count)
    }
}
