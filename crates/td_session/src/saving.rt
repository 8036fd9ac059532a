// The journal of a session, and the session of a journal.
ghost use Rattle.td_session.specs.Saved.{IsLoaded, IsSaved};

use crate::fault::Fault;
use crate::session::{Session, seat};
use std::alloc::Global;
use td_base::Bytes;
use td_journal::{Format, LoadFault, SaveFault, load, save};

impl Session {
    /// The journal of all that the session was asked and given, in the format with checks: who has it has the session.
    pub fn save(&self) -> Result<Bytes, Fault>
        ensures { IsSaved self.now result }
    {
        match save(self.alloc, &self.replica, Format::Checked) {
            Ok(journal) => Ok(journal),
            Err(SaveFault::Long) => Err(Fault::Long),
            Err(SaveFault::Memory) => Err(Fault::Memory),
        }
    }

    /// The session that a journal of a site among so many is of, in whatever format. It has sent what it had sent, and
    /// goes on from there.
    pub fn load(alloc: Global, site: u8, sites: u8, journal: &[u8]) -> Result<Session, Fault>
        ensures { IsLoaded site sites journal.now result }
    {
        let Some(own) = seat(site, sites) else {
            return Err(Fault::Site);
        };
        match load(alloc, own, sites, journal) {
            Ok(replica) => Ok(Session::of(alloc, replica)),
            Err(LoadFault::Bad { at }) => Err(Fault::Journal { at }),
            Err(LoadFault::Long) => Err(Fault::Long),
            Err(LoadFault::Memory) => Err(Fault::Memory),
        }
    }
}
