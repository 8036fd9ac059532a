ghost use Rattle.std.specs.Prelude.{◌≡◌, None, IfSome};
ghost use Rattle.treedoc_c.specs.declared.status.Status.TheVariants.{NoMessage};
ghost use Rattle.treedoc_c.specs.Written.{IsWrittenInto, IsWrittenOf, goes_to, nothing_written};

use crate::status::Status;
use td_base::{Bytes, Site};
use td_session::{Fault, Outgoing};

/// What a call answers that writes bytes: the number of its status, to whom they go (0: to all others), and how many
/// they are, whether they fit or not. C calls it `td_written`.
#[repr(C)]
#[derive(Clone, Copy, Debug, PartialEq, Eq)]
pub struct Written {
    pub status: u32,
    pub to: u32,
    pub len: usize,
}

impl Written {
    /// Nothing was written, and why.
    pub(crate) fn nothing(status: Status) -> Written
        ensures { result ≡ nothing_written status }
    {
        Written {
            status: status.number(),
            to: 0,
            len: 0,
        }
    }

    /// Writes the bytes into the room, if they fit.
    pub(crate) fn of(bytes: &[u8], to: u32, room: &mut [u8]) -> Written
        ensures { IsWrittenInto bytes.now to room.old room.new result }
    {
        let len = bytes.len();
        if room.len() < len {
            return Written {
                status: Status::SmallRoom.number(),
                to,
                len,
            };
        }
        room[..len].copy_from_slice(bytes);
        Written {
            status: Status::Done.number(),
            to,
            len,
        }
    }

    /// Writes a text or a journal into the room, where there is one that fits.
    pub(crate) fn text(text: &Result<Bytes, Fault>, room: &mut [u8]) -> Written
        ensures { IsWrittenOf text.now room.old room.new result }
    {
        match text {
            Ok(text) => Written::of(text.as_slice(), 0, room),
            Err(fault) => Written::nothing(Status::of(fault)),
        }
    }

    /// Writes a packet into the room, and for whom it is, where there is one.
    pub(crate) fn packet(outgoing: &Option<Outgoing>, room: &mut [u8]) -> Written
        ensures none { outgoing.now ≡ None → (result ≡ nothing_written NoMessage) × (room.new ≡ room.old) }
        ensures some { IfSome outgoing.now (λ out. IsWrittenInto out.packet (goes_to out.to) room.old room.new result) }
    {
        match outgoing {
            Some(outgoing) => Written::of(outgoing.packet.bytes(), number(outgoing.to), room),
            None => Written::nothing(Status::NoMessage),
        }
    }
}

// The number of a site, or 0.
fn number(site: Option<Site>) -> u32
    ensures { result ≡ goes_to site }
{
    match site {
        Some(site) => u32::from(site.number()),
        None => 0,
    }
}
