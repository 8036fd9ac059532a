ghost use Rattle.std.specs.Prelude.{◌≡◌};
ghost use Rattle.treedoc_c.specs.Numbers.{fault_status, status_number, why_number};

use td_op::Why;
use td_session::Fault;

/// What became of a call.
#[derive(Clone, Copy, Debug, PartialEq, Eq)]
pub(crate) enum Status {
    /// Done, and no step was made.
    Done,
    /// The replies of the machine.
    Made,
    Cancelled,
    Held,
    Position,
    Gone,
    Limit,
    NotOpen,
    New,
    Later,
    Repeat,
    Unfit,
    Taken,
    Dropped,
    Idle,
    /// Nothing was done, and why.
    Memory,
    Closed,
    Open,
    BadSite,
    BadAtom,
    BadText,
    BadDot,
    BadPacket,
    BadStretch,
    NoMessage,
    SmallRoom,
    BadJournal,
    LongJournal,
    BadUnit,
    BadPlace,
}

impl Status {
    /// Its number in `treedoc.h`.
    pub(crate) fn number(self) -> u32
        ensures { result ≡ status_number self }
    {
        match self {
            Status::Done => 0,
            Status::Made => 1,
            Status::Cancelled => 2,
            Status::Held => 3,
            Status::Position => 4,
            Status::Gone => 5,
            Status::Limit => 6,
            Status::NotOpen => 7,
            Status::New => 8,
            Status::Later => 9,
            Status::Repeat => 10,
            Status::Unfit => 11,
            Status::Taken => 12,
            Status::Dropped => 13,
            Status::Idle => 14,
            Status::Memory => 32,
            Status::Closed => 33,
            Status::Open => 34,
            Status::BadSite => 35,
            Status::BadAtom => 36,
            Status::BadText => 37,
            Status::BadDot => 38,
            Status::BadPacket => 39,
            Status::BadStretch => 40,
            Status::NoMessage => 41,
            Status::SmallRoom => 42,
            Status::BadJournal => 43,
            Status::LongJournal => 44,
            Status::BadUnit => 45,
            Status::BadPlace => 46,
        }
    }

    /// The status of a fault.
    pub(crate) fn of(fault: &Fault) -> Status
        ensures { result ≡ fault_status fault.now }
    {
        match fault {
            Fault::Memory => Status::Memory,
            Fault::Site => Status::BadSite,
            Fault::Atom => Status::BadAtom,
            Fault::Text => Status::BadText,
            Fault::Dot => Status::BadDot,
            Fault::Packet { .. } => Status::BadPacket,
            Fault::Stretch => Status::BadStretch,
            Fault::Place => Status::BadPlace,
            Fault::Journal { .. } => Status::BadJournal,
            Fault::Long => Status::LongJournal,
        }
    }
}

/// Why a message is unfit, by its number in `treedoc.h`.
pub(crate) fn why_number(why: Why) -> u32
    ensures { result ≡ why_number why }
{
    match why {
        Why::Size => 0,
        Why::Own => 1,
        Why::Atom => 2,
        Why::Proposal => 3,
        Why::Vote => 4,
        Why::Address => 5,
    }
}
