ghost use Rattle.std.specs.Prelude.{◌≡◌, Some, None, IsSome};
ghost use Rattle.treedoc_c.specs.Owned.{Held, held, held_coded};

mod lends;

use crate::parts::Parts;
use std::alloc::Global;
use std::marker::Model;
use td_session::Session;

/// A session behind an address, or nothing. The pointer says no more than that, since C may hold no pointer to what
/// a session is.
#[repr(C)]
#[derive(Drop)]
pub struct Handle {
    ptr: *mut u8,
    alloc: Global,
    pub ghost value: { Held } by { held_coded },
}

impl Model for Handle {
    ghost also_owns = { λ h. held h.alloc h.ptr h.value };
}

impl Handle {
    /// Nothing.
    pub(crate) fn none(alloc: Global) -> Handle
        ensures { result.value ≡ None }
    {
        Handle {
            ptr: std::ptr::null_mut(),
            alloc,
        }
    }

    /// The session in the box of which these are the parts.
    pub(crate) fn of_parts(parts: Parts<Session, Global>) -> Handle
        ensures { result.value ≡ Some parts.value }
    {
        let Parts { ptr, alloc } = parts;
        Handle {
            ptr: ptr as *mut u8,
            alloc,
        }
    }

    /// The parts of the box of the session, which is there.
    pub(crate) fn into_parts(self) -> Parts<Session, Global>
        requires { IsSome self.value }
        ensures { self.value ≡ Some result.value }
    {
        let Handle { ptr, alloc } = self;
        Parts {
            ptr: ptr as *mut Session,
            alloc,
        }
    }
}
