ghost use Rattle.std.specs.Prelude.{◌≡◌};
ghost use Rattle.treedoc_c.specs.Answers.{alone, answer_of, fault_answer, had_answer, named, placed, reply_answer};

use crate::status::{Status, why_number};
use td_base::Dot;
use td_op::Reply;
use td_session::Fault;

/// What a call answers: the number of its status, and what goes with it. C calls it `td_answer`.
#[repr(C)]
#[derive(Clone, Copy, Debug, PartialEq, Eq)]
pub struct Answer {
    pub status: u32,
    pub site: u32,
    pub number: u32,
    pub place: u32,
}

impl Answer {
    /// A status with nothing beside it.
    pub(crate) fn alone(status: Status) -> Answer
        ensures { result ≡ alone status }
    {
        placed(status, 0)
    }

    /// The answer to a call that makes a step.
    pub(crate) fn of(replied: &Result<Reply, Fault>) -> Answer
        ensures { result ≡ answer_of replied.now }
    {
        match replied {
            Ok(reply) => reply_answer(reply),
            Err(fault) => fault_answer(fault),
        }
    }

    /// The answer to a call that asks what is had of a site.
    pub(crate) fn had(site: u8, had: &Result<u32, Fault>) -> Answer
        ensures { result ≡ had_answer site had.now }
    {
        match had {
            Ok(number) => Answer {
                status: Status::Done.number(),
                site: u32::from(site),
                number: *number,
                place: 0,
            },
            Err(fault) => fault_answer(fault),
        }
    }
}

fn reply_answer(reply: &Reply) -> Answer
    ensures { result ≡ reply_answer reply.now }
{
    match *reply {
        Reply::Made { dot } => named(Status::Made, dot, 0),
        Reply::Cancelled => Answer::alone(Status::Cancelled),
        Reply::Held { by } => named(Status::Held, by, 0),
        Reply::Position { len } => placed(Status::Position, len),
        Reply::Gone { id } => named(Status::Gone, id.dot, u32::from(id.offset)),
        Reply::Limit { made, undecided } => Answer {
            status: Status::Limit.number(),
            site: 0,
            number: made,
            place: undecided,
        },
        Reply::NotOpen { proposal } => named(Status::NotOpen, proposal, 0),
        Reply::New => Answer::alone(Status::New),
        Reply::Later => Answer::alone(Status::Later),
        Reply::Repeat => Answer::alone(Status::Repeat),
        Reply::Unfit { why } => placed(Status::Unfit, why_number(why)),
        Reply::Taken { dot } => named(Status::Taken, dot, 0),
        Reply::Dropped { dot, why } => named(Status::Dropped, dot, why_number(why)),
        Reply::Idle => Answer::alone(Status::Idle),
    }
}

/// The answer to a call that a fault ended.
pub(crate) fn fault_answer(fault: &Fault) -> Answer
    ensures { result ≡ fault_answer fault.now }
{
    match fault {
        Fault::Memory => Answer::alone(Status::Memory),
        Fault::Site => Answer::alone(Status::BadSite),
        Fault::Atom => Answer::alone(Status::BadAtom),
        Fault::Text => Answer::alone(Status::BadText),
        Fault::Dot => Answer::alone(Status::BadDot),
        Fault::Packet { at } => placed(Status::BadPacket, *at),
        Fault::Stretch => Answer::alone(Status::BadStretch),
        Fault::Place => Answer::alone(Status::BadPlace),
        Fault::Journal { at } => placed(Status::BadJournal, *at),
        Fault::Long => Answer::alone(Status::LongJournal),
    }
}

// A status with a place.
fn placed(status: Status, place: u32) -> Answer
    ensures { result ≡ placed status place }
{
    Answer {
        status: status.number(),
        site: 0,
        number: 0,
        place,
    }
}

// A status with the name of an operation, and a place.
fn named(status: Status, dot: Dot, place: u32) -> Answer
    ensures { result ≡ named status dot place }
{
    Answer {
        status: status.number(),
        site: u32::from(dot.site.number()),
        number: dot.seq,
        place,
    }
}
