// The seats of all sites, that of site s at place s - 1.
ghost use Rattle.std.specs.Prelude.{◌≡◌, ◌≢◌, ◌<◌, ◌≤◌, ◌-◌, length, get_or, slice_get, None, option_and_then, IfOk};
ghost use Rattle.std.specs.Prelude.{IfSome};
ghost use Rattle.std.specs.List.{find};
ghost use Rattle.td_op.specs.Op.{IsOp};
ghost use Rattle.td_op.specs.declared.input.Input.TheVariants.{Local, Take, Next};
ghost use Rattle.td_op.specs.declared.message.Message.TheVariants.{Vote as AVote};
ghost use Rattle.td_machine.specs.Machine.{Machine};
ghost use Rattle.td_machine.specs.Ready.{is_dot_of};
ghost use Rattle.td_machine.specs.Step.{step};
ghost use Rattle.td_law_replay.specs.Judging.{Steps, judge_offer, judge_taken, outline};
ghost use Rattle.td_law_replay.specs.Replies.{is_new, taken_of};
ghost use Rattle.td_check.specs.ReplayParts.{IsOutlineAt};
ghost use Rattle.td_check.specs.Sites.{IsJudged, IsJudgedIn};

use crate::judged::Judged;
use crate::judging::{judge_asked, judge_idle, judge_offered, judge_taken, judge_vote};
use td_base::{Dot, Memory, Site};
use td_clock::Vector;
use td_doc::Doc;
use td_op::{Op, Reply, Request, Vote};
use td_seat::Seat;

/// A request of an editor of the site.
pub(crate) fn asked_at<D: Doc>(
    seats: &mut Vec<Seat<D>>,
    site: Site,
    request: Request,
    reply: &Reply,
) -> Result<Judged, Memory>
    requires { site ≤ length seats.old.items }
    ensures each { length seats.new.items ≡ length seats.old.items }
    ensures judged { (d : Machine) → IfOk result (λ judged. IsJudgedIn d site
        (Steps (step (get_or seats.old.items (site - 1) d) (Local request))) reply.now judged
        seats.old.items seats.new.items) }
{
    judge_asked(&mut seats[site.place()], request, reply)
}

/// A vote of another site, on a proposal of this one.
pub(crate) fn voted_at<D: Doc>(
    seats: &mut Vec<Seat<D>>,
    site: Site,
    vote: Vote,
    reply: &Reply,
) -> Result<Judged, Memory>
    requires { site ≤ length seats.old.items }
    ensures each { length seats.new.items ≡ length seats.old.items }
    ensures judged { (d : Machine) → IfOk result (λ judged. IsJudgedIn d site
        (Steps (step (get_or seats.old.items (site - 1) d) (Take (AVote vote)))) reply.now judged
        seats.old.items seats.new.items) }
{
    judge_vote(&mut seats[site.place()], vote, reply)
}

/// An operation that is offered to the site: what it depends on, and itself, as soon as it is made.
pub(crate) fn offered_at<D: Doc>(
    seats: &mut Vec<Seat<D>>,
    site: Site,
    dot: Dot,
    deps: Option<Vector>,
    op: Option<Op>,
    reply: &Reply,
) -> Result<Judged, Memory>
    requires within { site ≤ length seats.old.items }
    requires told { (d : Machine) → IfSome deps (λ v.
        (length v ≡ (get_or seats.old.items (site - 1) d).size) × IsOp (outline dot v)) }
    requires sized { (d : Machine) → IfSome op (λ x. length x.deps ≡ (get_or seats.old.items (site - 1) d).size) }
    ensures each { length seats.new.items ≡ length seats.old.items }
    ensures judged { (d : Machine) → IfOk result (λ judged. IsJudgedIn d site
        (judge_offer deps op (is_new reply.now) dot (get_or seats.old.items (site - 1) d)) reply.now judged
        seats.old.items seats.new.items) }
{
    judge_offered(&mut seats[site.place()], dot, deps, op, reply)
}

/// The operation that is said to have waited at the site and to be taken up.
pub(crate) fn taken_at<D: Doc>(
    seats: &mut Vec<Seat<D>>,
    site: Site,
    deps: Option<Vector>,
    op: Option<Op>,
    reply: &Reply,
) -> Result<Judged, Memory>
    requires within { site ≤ length seats.old.items }
    requires sized { (d : Machine) → IfSome op (λ x. length x.deps ≡ (get_or seats.old.items (site - 1) d).size) }
    requires apart { (d : Machine) → IfSome op (λ x. x.dot.site ≢ (get_or seats.old.items (site - 1) d).site) }
    requires outlined { (d : Machine) → IfSome op (IsOutlineAt (get_or seats.old.items (site - 1) d)) }
    ensures each { length seats.new.items ≡ length seats.old.items }
    ensures judged { (d : Machine) → IfOk result (λ judged. IsJudgedIn d site
        (judge_taken deps op (get_or seats.old.items (site - 1) d)) reply.now judged
        seats.old.items seats.new.items) }
{
    judge_taken(&mut seats[site.place()], deps, op, reply)
}

/// Nothing is said to be taken up at the site.
pub(crate) fn idle_at<D: Doc>(seats: &[Seat<D>], site: Site, reply: &Reply) -> Judged
    requires within { site ≤ length seats.now }
    requires none { taken_of reply.now ≡ None }
    ensures { (d : Machine) → IsJudged (Steps (step (get_or seats.now (site - 1) d) Next)) reply.now result
        (get_or seats.now (site - 1) d) (get_or seats.now (site - 1) d) }
{
    judge_idle(&seats[site.place()], reply)
}

/// The operation with this dot at the seat of its site.
pub(crate) fn op_at<D: Doc>(seats: &[Seat<D>], dot: Dot) -> Option<Op>
    ensures op { result
        ≡ option_and_then (λ (m : Machine). find (is_dot_of dot) m.log) (slice_get seats.now (dot.site - 1)) }
    ensures some { 0 < dot.site }
{
    let place = dot.site.place();
    let seat = seats.get(place)?;
    seat.op(dot)
}
