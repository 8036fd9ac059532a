// What a session tells. A closed one has no text and no site, and sent nothing.
ghost use Rattle.std.specs.Prelude.{◌≡◌, ℕ, false, length, Result, Some, None};
ghost use Rattle.td_doc.specs.Document.{live_rows, text_of};
ghost use Rattle.td_machine.specs.Machine.{made};
ghost use Rattle.td_replica.specs.Replica.{ReplicaValue, has_ready};
ghost use Rattle.td_session.specs.declared.fault.Fault.{Fault};
ghost use Rattle.td_session.specs.Reads.{IsHad};
ghost use Rattle.treedoc_c.specs.declared.status.Status.TheVariants.{Closed, Done};
ghost use Rattle.treedoc_c.specs.Answers.{alone, had_answer};
ghost use Rattle.treedoc_c.specs.Changes.{change_of};
ghost use Rattle.treedoc_c.specs.Numbers.{status_number};
ghost use Rattle.treedoc_c.specs.Written.{IsPacked, IsStretchWritten, IsTextWritten, nothing_written};

use crate::answer::Answer;
use crate::change::TextChange;
use crate::held::HeldSession;
use crate::status::Status;
use crate::written::Written;

/// The own site.
#[unsafe(no_mangle)]
pub extern "C" fn td_site(session: &mut HeldSession) -> u32
    ensures same { session.new.handle.value ≡ session.old.handle.value }
    ensures closed { session.old.handle.value ≡ None → result ≡ 0 }
    ensures open { (r : ReplicaValue) → session.old.handle.value ≡ Some r → result ≡ r.machine.site }
{
    if !session.is_open {
        return 0;
    }
    u32::from(session.handle.lend().site().number())
}

/// How many sites share the text.
#[unsafe(no_mangle)]
pub extern "C" fn td_sites(session: &mut HeldSession) -> u32
    ensures same { session.new.handle.value ≡ session.old.handle.value }
    ensures closed { session.old.handle.value ≡ None → result ≡ 0 }
    ensures open { (r : ReplicaValue) → session.old.handle.value ≡ Some r → result ≡ r.machine.size }
{
    if !session.is_open {
        return 0;
    }
    u32::from(session.handle.lend().sites())
}

/// How many atoms the text has.
#[unsafe(no_mangle)]
pub extern "C" fn td_len(session: &mut HeldSession) -> u32
    ensures same { session.new.handle.value ≡ session.old.handle.value }
    ensures closed { session.old.handle.value ≡ None → result ≡ 0 }
    ensures open { (r : ReplicaValue) → session.old.handle.value ≡ Some r → result ≡ length (live_rows r.machine.doc) }
{
    if !session.is_open {
        return 0;
    }
    session.handle.lend().len()
}

/// How many messages were sent.
#[unsafe(no_mangle)]
pub extern "C" fn td_sent(session: &mut HeldSession) -> u64
    ensures same { session.new.handle.value ≡ session.old.handle.value }
    ensures closed { session.old.handle.value ≡ None → result ≡ 0 }
    ensures open { (r : ReplicaValue) → session.old.handle.value ≡ Some r → result ≡ length r.machine.sent }
{
    if !session.is_open {
        return 0;
    }
    session.handle.lend().sent()
}

/// How many operations were made here.
#[unsafe(no_mangle)]
pub extern "C" fn td_made(session: &mut HeldSession) -> u32
    ensures same { session.new.handle.value ≡ session.old.handle.value }
    ensures closed { session.old.handle.value ≡ None → result ≡ 0 }
    ensures open { (r : ReplicaValue) → session.old.handle.value ≡ Some r → result ≡ made r.machine }
{
    if !session.is_open {
        return 0;
    }
    session.handle.lend().made()
}

/// How many operations wait for others.
#[unsafe(no_mangle)]
pub extern "C" fn td_waiting(session: &mut HeldSession) -> u32
    ensures same { session.new.handle.value ≡ session.old.handle.value }
    ensures closed { session.old.handle.value ≡ None → result ≡ 0 }
    ensures open { (r : ReplicaValue) → session.old.handle.value ≡ Some r → result ≡ length r.machine.waiting }
{
    if !session.is_open {
        return 0;
    }
    session.handle.lend().waiting()
}

/// How many proposals are held.
#[unsafe(no_mangle)]
pub extern "C" fn td_holds(session: &mut HeldSession) -> u32
    ensures same { session.new.handle.value ≡ session.old.handle.value }
    ensures closed { session.old.handle.value ≡ None → result ≡ 0 }
    ensures open { (r : ReplicaValue) → session.old.handle.value ≡ Some r → result ≡ length r.machine.holds }
{
    if !session.is_open {
        return 0;
    }
    session.handle.lend().holds()
}

/// Whether `td_next` would take an operation.
#[unsafe(no_mangle)]
pub extern "C" fn td_ready(session: &mut HeldSession) -> bool
    ensures same { session.new.handle.value ≡ session.old.handle.value }
    ensures closed { session.old.handle.value ≡ None → result ≡ false }
    ensures open { (r : ReplicaValue) → session.old.handle.value ≡ Some r → result ≡ has_ready r.machine }
{
    if !session.is_open {
        return false;
    }
    session.handle.lend().ready()
}

/// How many operations of a site were made or taken here.
#[unsafe(no_mangle)]
pub extern "C" fn td_had(session: &mut HeldSession, site: u8) -> Answer
    ensures same { session.new.handle.value ≡ session.old.handle.value }
    ensures closed { session.old.handle.value ≡ None → result ≡ alone Closed }
    ensures open { (r : ReplicaValue) → session.old.handle.value ≡ Some r
        → (had : Result ℕ Fault) × IsHad site r.machine had × (result ≡ had_answer site had) }
{
    if !session.is_open {
        return Answer::alone(Status::Closed);
    }
    Answer::had(site, &session.handle.lend().had(site))
}

/// What the last step did to the text.
#[unsafe(no_mangle)]
pub extern "C" fn td_changed(session: &mut HeldSession, change: &mut TextChange) -> u32
    ensures same { session.new.handle.value ≡ session.old.handle.value }
    ensures closed { session.old.handle.value ≡ None → (result ≡ status_number Closed) × (change.new ≡ change.old) }
    ensures open { (r : ReplicaValue) → session.old.handle.value ≡ Some r
        → (result ≡ status_number Done) × (change.new ≡ change_of r.change) }
{
    if !session.is_open {
        return Status::Closed.number();
    }
    *change = TextChange::of(&session.handle.lend().changed());
    Status::Done.number()
}

/// Writes the k-th message that was sent, from 1, into the room, as a packet.
#[unsafe(no_mangle)]
pub extern "C" fn td_packet(session: &mut HeldSession, k: u64, room: &mut [u8]) -> Written
    ensures same { session.new.handle.value ≡ session.old.handle.value }
    ensures closed { session.old.handle.value ≡ None → (result ≡ nothing_written Closed) × (room.new ≡ room.old) }
    ensures open { (r : ReplicaValue) → session.old.handle.value ≡ Some r
        → IsPacked k r.machine.sent room.old room.new result }
{
    if !session.is_open {
        return Written::nothing(Status::Closed);
    }
    Written::packet(&session.handle.lend().packet(k), room)
}

/// Writes the text into the room.
#[unsafe(no_mangle)]
pub extern "C" fn td_text(session: &mut HeldSession, room: &mut [u8]) -> Written
    ensures same { session.new.handle.value ≡ session.old.handle.value }
    ensures closed { session.old.handle.value ≡ None → (result ≡ nothing_written Closed) × (room.new ≡ room.old) }
    ensures open { (r : ReplicaValue) → session.old.handle.value ≡ Some r
        → IsTextWritten (text_of r.machine.doc) room.old room.new result }
{
    if !session.is_open {
        return Written::nothing(Status::Closed);
    }
    Written::text(&session.handle.lend().text(), room)
}

/// Writes the text of the atoms from one index on and before another into the room.
#[unsafe(no_mangle)]
pub extern "C" fn td_stretch(
    session: &mut HeldSession,
    from: u32,
    upto: u32,
    room: &mut [u8],
) -> Written
    ensures same { session.new.handle.value ≡ session.old.handle.value }
    ensures closed { session.old.handle.value ≡ None → (result ≡ nothing_written Closed) × (room.new ≡ room.old) }
    ensures open { (r : ReplicaValue) → session.old.handle.value ≡ Some r
        → IsStretchWritten from upto r.machine.doc room.old room.new result }
{
    if !session.is_open {
        return Written::nothing(Status::Closed);
    }
    Written::text(&session.handle.lend().stretch(from, upto), room)
}
