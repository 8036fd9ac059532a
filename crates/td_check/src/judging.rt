// What an entry comes to at the seat of its site.
ghost use Rattle.std.specs.Prelude.{◌≡◌, ◌≢◌, ◌↔◌, length, false, None, Some, IfOk, IfSome, IsTrue};
ghost use Rattle.td_op.specs.Op.{IsOp};
ghost use Rattle.td_op.specs.declared.input.Input.TheVariants.{Local, Take, Next};
ghost use Rattle.td_op.specs.declared.message.Message.TheVariants.{Op as AnOp, Vote as AVote};
ghost use Rattle.td_machine.specs.Machine.{Machine};
ghost use Rattle.td_machine.specs.Step.{step};
ghost use Rattle.td_machine.specs.Taking.{Stepped};
ghost use Rattle.td_law_replay.specs.Judging.{Steps, judge_offer, judge_taken, outline};
ghost use Rattle.td_law_replay.specs.Replies.{NotUnfit, is_new, taken_of};
ghost use Rattle.td_check.specs.ReplayParts.{IsOutlineAt};
ghost use Rattle.td_check.specs.Sites.{IsJudged};

use crate::judged::Judged;
use td_base::{Dot, Memory};
use td_clock::Vector;
use td_doc::Doc;
use td_op::{Body, Op, Reply, Request, Vote};
use td_path::Slot;
use td_seat::Seat;

/// A request of an editor.
pub(crate) fn judge_asked<D: Doc>(
    seat: &mut Seat<D>,
    request: Request,
    reply: &Reply,
) -> Result<Judged, Memory>
    ensures { IfOk result (λ judged.
        IsJudged (Steps (step seat.old (Local request))) reply.now judged seat.old seat.new) }
{
    let answer = seat.ask(request)?;
    Ok(judged_by(&answer, reply))
}

/// A vote of another site, on a proposal of this one.
pub(crate) fn judge_vote<D: Doc>(
    seat: &mut Seat<D>,
    vote: Vote,
    reply: &Reply,
) -> Result<Judged, Memory>
    ensures { IfOk result (λ judged.
        IsJudged (Steps (step seat.old (Take (AVote vote)))) reply.now judged seat.old seat.new) }
{
    let answer = seat.count(vote)?;
    Ok(judged_by(&answer, reply))
}

/// An operation of another site that is offered: what it depends on as its site's entries tell it, and itself as soon
/// as it is made.
pub(crate) fn judge_offered<D: Doc>(
    seat: &mut Seat<D>,
    dot: Dot,
    deps: Option<Vector>,
    op: Option<Op>,
    reply: &Reply,
) -> Result<Judged, Memory>
    requires told { IfSome deps (λ v. (length v ≡ seat.old.size) × IsOp (outline dot v)) }
    requires sized { IfSome op (λ x. length x.deps ≡ seat.old.size) }
    ensures { IfOk result (λ judged.
        IsJudged (judge_offer deps op (is_new reply.now) dot seat.old) reply.now judged seat.old seat.new) }
{
    let Some(deps) = deps else {
        return Ok(Judged::Lost);
    };
    if !is_new(reply) {
        return judge_known(seat, dot, &deps, reply);
    }
    let Some(op) = op else {
        return Ok(Judged::Waits);
    };
    judge_used(seat, &op, reply)
}

// An operation that is used.
fn judge_used<D: Doc>(seat: &mut Seat<D>, op: &Op, reply: &Reply) -> Result<Judged, Memory>
    requires sized { length op.now.deps ≡ seat.old.size }
    requires new { IsTrue (is_new reply.now) }
    ensures { IfOk result (λ judged.
        IsJudged (Steps (step seat.old (Take (AnOp op.now)))) reply.now judged seat.old seat.new) }
{
    let is_new = seat.take(op)?;
    Ok(if is_new { Judged::Done } else { Judged::Wrong })
}

// An operation that waits, or is known: of it the dot and the dependencies are enough.
fn judge_known<D: Doc>(
    seat: &mut Seat<D>,
    dot: Dot,
    deps: &Vector,
    reply: &Reply,
) -> Result<Judged, Memory>
    requires sized { length deps.now ≡ seat.old.size }
    requires op { IsOp (outline dot deps.now) }
    requires other { is_new reply.now ≡ false }
    ensures { IfOk result (λ judged.
        IsJudged (Steps (step seat.old (Take (AnOp (outline dot deps.now))))) reply.now judged seat.old seat.new) }
{
    let slot = Slot::Root;
    let known = Op::of(dot, deps, &Body::Propose { slot });
    let answer = seat.know(&known)?;
    Ok(judged_by(&answer, reply))
}

/// The operation that is said to have waited and to be taken up.
pub(crate) fn judge_taken<D: Doc>(
    seat: &mut Seat<D>,
    deps: Option<Vector>,
    op: Option<Op>,
    reply: &Reply,
) -> Result<Judged, Memory>
    requires sized { IfSome op (λ x. length x.deps ≡ seat.old.size) }
    requires apart { IfSome op (λ x. x.dot.site ≢ seat.old.site) }
    requires outlined { IfSome op (IsOutlineAt seat.old) }
    ensures { IfOk result (λ judged. IsJudged (judge_taken deps op seat.old) reply.now judged seat.old seat.new) }
{
    let Some(_) = deps else {
        return Ok(Judged::Lost);
    };
    let Some(op) = op else {
        return Ok(Judged::Waits);
    };
    let answer = seat.take_up(&op)?;
    Ok(judged_by(&answer, reply))
}

/// Nothing is said to be taken up. It takes no memory.
pub(crate) fn judge_idle<D: Doc>(seat: &Seat<D>, reply: &Reply) -> Judged
    requires { taken_of reply.now ≡ None }
    ensures { IsJudged (Steps (step seat.now Next)) reply.now result seat.now seat.now }
{
    match reply {
        Reply::Idle if seat.is_idle() => Judged::Done,
        _ => Judged::Wrong,
    }
}

// By the reply of the machine, where it stepped.
fn judged_by(answer: &Reply, reply: &Reply) -> Judged
    ensures { (m : Machine) (to : Stepped) → to.reply ≡ answer.now → IsJudged (Steps to) reply.now result m to.machine }
{
    if same_reply(answer, reply) && is_fit(reply) {
        Judged::Done
    } else {
        Judged::Wrong
    }
}

fn same_reply(one: &Reply, other: &Reply) -> bool
    ensures { IsTrue result ↔ (one.now ≡ other.now) }
{
    one == other
}

// Whether the message was taken.
fn is_new(reply: &Reply) -> bool
    ensures { result ≡ is_new reply.now }
{
    matches!(reply, Reply::New)
}

// Whether the reply tells of nothing unfit.
fn is_fit(reply: &Reply) -> bool
    ensures { IsTrue result ↔ NotUnfit reply.now }
{
    !matches!(reply, Reply::Unfit { .. } | Reply::Dropped { .. })
}
