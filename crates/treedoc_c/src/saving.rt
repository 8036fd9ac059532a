// Saving a session, and loading one.
ghost use Rattle.std.specs.Prelude.{◌≡◌, Some, None};
ghost use Rattle.td_replica.specs.Replica.{ReplicaValue};
ghost use Rattle.treedoc_c.specs.declared.status.Status.TheVariants.{Closed, Open};
ghost use Rattle.treedoc_c.specs.Answers.{alone};
ghost use Rattle.treedoc_c.specs.Saved.{IsJournalWritten, IsLoadedBy};
ghost use Rattle.treedoc_c.specs.Written.{nothing_written};

use crate::answer::{Answer, fault_answer};
use crate::held::HeldSession;
use crate::opening::hold;
use crate::status::Status;
use crate::written::Written;
use std::alloc::Global;
use td_session::Session;

/// Writes the journal of the session into the room.
#[unsafe(no_mangle)]
pub extern "C" fn td_save(session: &mut HeldSession, room: &mut [u8]) -> Written
    ensures same { session.new.handle.value ≡ session.old.handle.value }
    ensures closed { session.old.handle.value ≡ None → (result ≡ nothing_written Closed) × (room.new ≡ room.old) }
    ensures open { (r : ReplicaValue) → session.old.handle.value ≡ Some r
        → IsJournalWritten r room.old room.new result }
{
    if !session.is_open {
        return Written::nothing(Status::Closed);
    }
    Written::text(&session.handle.lend().save(), room)
}

/// Opens a closed session with what a journal of a site among so many has.
#[unsafe(no_mangle)]
pub extern "C" fn td_load(
    alloc: Global,
    site: u8,
    sites: u8,
    journal: &[u8],
    session: &mut HeldSession,
) -> Answer
    ensures open { (r : ReplicaValue) → session.old.handle.value ≡ Some r
        → (result ≡ alone Open) × (session.new.handle.value ≡ Some r) }
    ensures closed { session.old.handle.value ≡ None
        → IsLoadedBy site sites journal.now session.new.handle.value result }
{
    if session.is_open {
        return Answer::alone(Status::Open);
    }
    match Session::load(alloc, site, sites, journal) {
        Ok(loaded) => Answer::alone(hold(alloc, loaded, session)),
        Err(fault) => fault_answer(&fault),
    }
}
