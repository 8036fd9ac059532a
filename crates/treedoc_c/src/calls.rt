// The calls that make a step: each is the session's.
ghost use Rattle.std.specs.Prelude.{◌≡◌, Some, None};
ghost use Rattle.td_path.specs.declared.slot.Slot.TheVariants.{Root};
ghost use Rattle.td_op.specs.declared.input.Input.TheVariants.{Local, Next};
ghost use Rattle.td_op.specs.declared.request.Request.TheVariants.{Delete, Propose, ProposeAt};
ghost use Rattle.td_replica.specs.Replica.{ReplicaValue};
ghost use Rattle.td_session.specs.Calls.{IsCall, IsCancel, IsInsert, IsPaste, IsReceived};
ghost use Rattle.treedoc_c.specs.declared.status.Status.TheVariants.{Closed};
ghost use Rattle.treedoc_c.specs.Answers.{alone};
ghost use Rattle.treedoc_c.specs.Asked.{IsCallAnswered};
ghost use Rattle.treedoc_c.specs.Side.{side};

use crate::answer::Answer;
use crate::held::HeldSession;
use crate::status::Status;
use td_base::Bit;

/// Puts an atom, 1 to 64 bytes of UTF-8, at an index.
#[unsafe(no_mangle)]
pub extern "C" fn td_insert(session: &mut HeldSession, index: u32, text: &[u8]) -> Answer
    ensures closed { session.old.handle.value ≡ None → (result ≡ alone Closed) × (session.new.handle.value ≡ None) }
    ensures open { (r : ReplicaValue) → session.old.handle.value ≡ Some r
        → IsCallAnswered (IsInsert index text.now) r session.new.handle.value result }
{
    if !session.is_open {
        return Answer::alone(Status::Closed);
    }
    Answer::of(&session.handle.lend().insert(index, text))
}

/// Puts the first run of a text at an index.
#[unsafe(no_mangle)]
pub extern "C" fn td_paste(session: &mut HeldSession, index: u32, text: &[u8]) -> Answer
    ensures closed { session.old.handle.value ≡ None → (result ≡ alone Closed) × (session.new.handle.value ≡ None) }
    ensures open { (r : ReplicaValue) → session.old.handle.value ≡ Some r
        → IsCallAnswered (IsPaste index text.now) r session.new.handle.value result }
{
    if !session.is_open {
        return Answer::alone(Status::Closed);
    }
    Answer::of(&session.handle.lend().paste(index, text))
}

/// Deletes the atom at an index.
#[unsafe(no_mangle)]
pub extern "C" fn td_delete(session: &mut HeldSession, index: u32) -> Answer
    ensures closed { session.old.handle.value ≡ None → (result ≡ alone Closed) × (session.new.handle.value ≡ None) }
    ensures open { (r : ReplicaValue) → session.old.handle.value ≡ Some r
        → IsCallAnswered (IsCall (Local (Delete index))) r session.new.handle.value result }
{
    if !session.is_open {
        return Answer::alone(Status::Closed);
    }
    Answer::of(&session.handle.lend().delete(index))
}

/// Proposes to flatten the whole document.
#[unsafe(no_mangle)]
pub extern "C" fn td_flatten_root(session: &mut HeldSession) -> Answer
    ensures closed { session.old.handle.value ≡ None → (result ≡ alone Closed) × (session.new.handle.value ≡ None) }
    ensures open { (r : ReplicaValue) → session.old.handle.value ≡ Some r
        → IsCallAnswered (IsCall (Local (Propose Root))) r session.new.handle.value result }
{
    if !session.is_open {
        return Answer::alone(Status::Closed);
    }
    Answer::of(&session.handle.lend().flatten_root())
}

/// Proposes to flatten what hangs on one side of the atom at an index.
#[unsafe(no_mangle)]
pub extern "C" fn td_flatten_side(session: &mut HeldSession, index: u32, right: bool) -> Answer
    ensures closed { session.old.handle.value ≡ None → (result ≡ alone Closed) × (session.new.handle.value ≡ None) }
    ensures open { (r : ReplicaValue) → session.old.handle.value ≡ Some r
        → IsCallAnswered (IsCall (Local (ProposeAt index (side right)))) r session.new.handle.value result }
{
    if !session.is_open {
        return Answer::alone(Status::Closed);
    }
    Answer::of(&session.handle.lend().flatten_side(index, side(right)))
}

/// Gives up an own proposal.
#[unsafe(no_mangle)]
pub extern "C" fn td_cancel(session: &mut HeldSession, site: u8, number: u32) -> Answer
    ensures closed { session.old.handle.value ≡ None → (result ≡ alone Closed) × (session.new.handle.value ≡ None) }
    ensures open { (r : ReplicaValue) → session.old.handle.value ≡ Some r
        → IsCallAnswered (IsCancel site number) r session.new.handle.value result }
{
    if !session.is_open {
        return Answer::alone(Status::Closed);
    }
    Answer::of(&session.handle.lend().cancel(site, number))
}

/// Takes a packet of another site.
#[unsafe(no_mangle)]
pub extern "C" fn td_receive(session: &mut HeldSession, packet: &[u8]) -> Answer
    ensures closed { session.old.handle.value ≡ None → (result ≡ alone Closed) × (session.new.handle.value ≡ None) }
    ensures open { (r : ReplicaValue) → session.old.handle.value ≡ Some r
        → IsCallAnswered (IsReceived packet.now) r session.new.handle.value result }
{
    if !session.is_open {
        return Answer::alone(Status::Closed);
    }
    Answer::of(&session.handle.lend().receive(packet))
}

/// Takes the least ready operation of those that wait.
#[unsafe(no_mangle)]
pub extern "C" fn td_next(session: &mut HeldSession) -> Answer
    ensures closed { session.old.handle.value ≡ None → (result ≡ alone Closed) × (session.new.handle.value ≡ None) }
    ensures open { (r : ReplicaValue) → session.old.handle.value ≡ Some r
        → IsCallAnswered (IsCall Next) r session.new.handle.value result }
{
    if !session.is_open {
        return Answer::alone(Status::Closed);
    }
    Answer::of(&session.handle.lend().next())
}

// The side that C names.
fn side(right: bool) -> Bit
    ensures { result ≡ side right }
{
    if right { Bit::Right } else { Bit::Left }
}
