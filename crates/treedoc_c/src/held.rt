ghost use Rattle.std.specs.Prelude.{◌≡◌, is_some};

use crate::handle::Handle;

/// A session as C holds it: open, or closed, as 16 bytes of zeros are. C calls it `td_session`.
#[repr(C)]
#[derive(Drop)]
pub struct HeldSession {
    pub(crate) handle: Handle,
    pub(crate) is_open: bool,
    ghost says: { is_open ≡ is_some handle.value },
}
