ghost use Rattle.std.specs.Prelude.{◌≡◌, Some, IsSome};
ghost use types.Logic.{sem};
ghost use Rattle.treedoc_c.specs.Lent.{handle_follows};

use super::Handle;
use td_session::Session;

impl Handle {
    /// Lends the session, which is there.
    pub(crate) fn lend(&mut self) -> &mut Session
        requires { IsSome self.old.value }
        ensures* writes_back { sem 𝓛 (handle_follows self.entry result) }
        ensures value { self.old.value ≡ Some result.now }
    {
        unsafe { &mut *(self.ptr as *mut Session) }
    }
}
