// Opening and closing.
ghost use Rattle.std.specs.Prelude.{◌≡◌, Some, None};
ghost use Rattle.td_replica.specs.Replica.{ReplicaValue};
ghost use Rattle.treedoc_c.specs.declared.status.Status.TheVariants.{Open};
ghost use Rattle.treedoc_c.specs.Asked.{IsHeldBy, IsOpenedBy};
ghost use Rattle.treedoc_c.specs.Numbers.{status_number};
ghost use Rattle.treedoc_c.specs.declared.opening.TheConstants.{VERSION};

use crate::handle::Handle;
use crate::held::HeldSession;
use crate::parts::Parts;
use crate::status::Status;
use std::alloc::Global;
use td_session::Session;

/// The number of what `treedoc.h` declares: it has the same, and grows by each change of a declaration.
pub const VERSION: u32 = 3;

/// The version of the library.
#[unsafe(no_mangle)]
pub extern "C" fn td_version() -> u32
    ensures { result ≡ VERSION }
{
    VERSION
}

/// Opens a closed session at a site among so many.
#[unsafe(no_mangle)]
pub extern "C" fn td_open(alloc: Global, site: u8, sites: u8, session: &mut HeldSession) -> u32
    ensures open { (r : ReplicaValue) → session.old.handle.value ≡ Some r
        → (result ≡ status_number Open) × (session.new.handle.value ≡ Some r) }
    ensures closed { session.old.handle.value ≡ None → IsOpenedBy site sites session.new.handle.value result }
{
    if session.is_open {
        return Status::Open.number();
    }
    match Session::open(alloc, site, sites) {
        Ok(opened) => hold(alloc, opened, session).number(),
        Err(fault) => Status::of(&fault).number(),
    }
}

/// Puts an opened session into a closed one. Answers Done or Memory.
pub(crate) fn hold(alloc: Global, opened: Session, session: &mut HeldSession) -> Status
    requires { session.old.handle.value ≡ None }
    ensures { IsHeldBy opened session.new.handle.value result }
{
    match Box::new(alloc, opened) {
        Ok(opened) => {
            *session = HeldSession {
                handle: Handle::of_parts(Parts::of(opened)),
                is_open: true,
            };
            Status::Done
        }
        Err(_) => Status::Memory,
    }
}

/// Closes a session, if it is open, and frees what it has.
#[unsafe(no_mangle)]
pub extern "C" fn td_close(alloc: Global, session: &mut HeldSession)
    ensures { session.new.handle.value ≡ None }
{
    let closed = HeldSession {
        handle: Handle::none(alloc),
        is_open: false,
    };
    let was = std::mem::replace(session, closed);
    if was.is_open {
        drop(was.handle.into_parts().into_box());
    }
}
