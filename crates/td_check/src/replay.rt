ghost use Rattle.std.specs.Prelude.{◌≡◌, ◌==◌, ◌||◌, not, ℕ, ◌<◌, ◌≤◌, ◌+◌, ◌-◌, ◌≢◌, length, slice_get, slice_set};
ghost use Rattle.std.specs.Prelude.{Some, IfOk, IfSome, IsTrue, ◌↔◌};
ghost use Rattle.td_op.specs.Op.{OpValue, IsOp};
ghost use Rattle.td_law_replay.specs.Judging.{begin, judge, judge_offer, judge_taken, made_op, outline};
ghost use Rattle.td_law_replay.specs.Replies.{is_new, taken_of};
ghost use Rattle.td_law_replay.specs.Counting.{made_deps};
ghost use Rattle.td_law_replay.specs.Traced.{site_entries};
ghost use Rattle.td_trace.specs.declared.told_input.ToldInput.TheVariants.{Asked, TookOp, TookVote, Went as WentOn};
ghost use Rattle.td_check.specs.Sites.{IsJudgedAt, NextComesTo, IsReplaying, done_of, histories_of};
ghost use Rattle.td_check.specs.Sites.{machine_of, states_of};
ghost use Rattle.td_check.specs.ReplayParts.{IsOutlineAt};

use crate::judged::Judged;
use crate::opening::{made_of, seats_of};
use crate::seats::{asked_at, idle_at, offered_at, op_at, taken_at, voted_at};
use std::alloc::Global;
use std::marker::Model;
use td_base::{Dot, Memory, Site};
use td_clock::Vector;
use td_doc::Doc;
use td_op::{Op, Reply, Request, Vote};
use td_reader::ReadTrace;
use td_seat::{Made, Seat};
use td_trace::{ToldInput, TraceEntry};

/// The replay of a trace of one site or more, seen as the trace, the machines of the sites, and how many of its entries
/// each has done.
#[derive(Drop)]
pub(crate) struct Replay<'a, D: Doc> {
    pub(crate) trace: &'a ReadTrace<'a>,
    made: Made,
    // of site s at place s - 1
    pub(crate) seats: Vec<Seat<D>>,
    pub(crate) done: Vec<u32>,
}

impl<'a, D: Doc> Model for Replay<'a, D> {
    ghost use Rattle.td_check.specs.Sites.{ReplayValue};
    ghost use Rattle.td_check.specs.ReplayParts.{IsReplayParts};

    ghost Value = { ReplayValue };

    ghost view = { λ r. record { trace = r.trace.now; machines = r.seats.items; done = r.done.items } };

    ghost invariant = { λ r. IsReplayParts r.made (record {
      trace = r.trace.now;
      machines = r.seats.items;
      done = r.done.items;
    }) };
}

impl<'a, D: Doc> Replay<'a, D> {
    /// The sites have done nothing.
    pub(crate) fn new(alloc: Global, trace: &'a ReadTrace<'a>) -> Result<Replay<'a, D>, Memory>
        requires { 0 < trace.now.sites }
        ensures begun { IfOk result (λ r. (r.trace ≡ trace.now) × (states_of r ≡ begin (histories_of r))) }
        ensures none { IfOk result (λ r. (site : ℕ) → done_of r site ≡ 0) }
    {
        Ok(Replay {
            trace,
            made: made_of(alloc, trace)?,
            seats: seats_of(alloc, trace.sites())?,
            done: vec![in alloc; 0; usize::from(trace.sites())]?,
        })
    }

    /// The next entry of a site is done, where it can be.
    pub(crate) fn next(&mut self, site: Site) -> Result<Option<Judged>, Memory>
        requires within { site ≤ self.old.trace.sites }
        requires replaying { IsReplaying self.old }
        ensures { IfOk result (λ judged. NextComesTo site self.old judged self.new) }
    {
        let Some(entry) = self.next_entry(site) else {
            return Ok(None);
        };
        let judged = self.judge(site, &entry)?;
        if is_done(judged) {
            self.count_done(site);
        }
        Ok(Some(judged))
    }

    // The next entry of the site.
    fn next_entry(&self, site: Site) -> Option<TraceEntry>
        requires { site ≤ self.now.trace.sites }
        ensures entry { result ≡ slice_get (site_entries (histories_of self.now) site) (done_of self.now site) }
        ensures some { 0 < site }
        ensures histories { length (histories_of self.now) ≡ self.now.trace.sites }
        ensures machines { length self.now.machines ≡ self.now.trace.sites }
        ensures done { length self.now.done ≡ self.now.trace.sites }
    {
        let done = self.done[site.place()];
        self.trace.entry(site, done)
    }

    // One more entry of the site is done.
    fn count_done(&mut self, site: Site)
        requires within { site ≤ self.old.trace.sites }
        requires left { done_of self.old site < length (site_entries (histories_of self.old) site) }
        ensures { self.new ≡ record self.old { done = slice_set self.old.done (site - 1) (done_of self.old site + 1) } }
    {
        let place = site.place();
        let entries = self.trace.entries(site);
        if self.done[place] < entries {
            self.done[place] += 1;
        }
    }

    // What an entry of the site comes to.
    fn judge(&mut self, site: Site, entry: &TraceEntry) -> Result<Judged, Memory>
        requires within { site ≤ self.old.trace.sites }
        requires replaying { IsReplaying self.old }
        ensures { IfOk result (λ judged. IsJudgedAt site (judge (histories_of self.old) (states_of self.old) site
            (machine_of self.old site) entry.now.told entry.now.reply) entry.now.reply judged self.old self.new) }
    {
        match &entry.told {
            ToldInput::Asked(request) => self.asked(site, *request, &entry.reply),
            ToldInput::TookOp { dot } => self.offered(site, *dot, &entry.reply),
            ToldInput::TookVote(vote) => self.voted(site, *vote, &entry.reply),
            ToldInput::Went => self.went(site, &entry.reply),
        }
    }

    // A request of an editor of the site.
    fn asked(&mut self, site: Site, request: Request, reply: &Reply) -> Result<Judged, Memory>
        requires { site ≤ self.old.trace.sites }
        ensures { IfOk result (λ judged. IsJudgedAt site (judge (histories_of self.old) (states_of self.old) site
            (machine_of self.old site) (Asked request) reply.now) reply.now judged self.old self.new) }
    {
        asked_at(&mut self.seats, site, request, reply)
    }

    // An operation that is offered.
    fn offered(&mut self, site: Site, dot: Dot, reply: &Reply) -> Result<Judged, Memory>
        requires within { site ≤ self.old.trace.sites }
        requires replaying { IsReplaying self.old }
        ensures { IfOk result (λ judged. IsJudgedAt site (judge (histories_of self.old) (states_of self.old) site
            (machine_of self.old site) (TookOp dot) reply.now) reply.now judged self.old self.new) }
    {
        if is_of(dot, site) {
            return Ok(Judged::Lost);
        }
        self.is_placed(site);
        let deps = self.deps(dot);
        let op = self.made_op(dot);
        self.offer(site, dot, deps, op, reply)
    }

    // An operation is offered: what it depends on, and itself, as soon as it is made.
    fn offer(
        &mut self,
        site: Site,
        dot: Dot,
        deps: Option<Vector>,
        op: Option<Op>,
        reply: &Reply,
    ) -> Result<Judged, Memory>
        requires within { site ≤ self.old.trace.sites }
        requires told { IfSome deps (λ v. (length v ≡ (machine_of self.old site).size) × IsOp (outline dot v)) }
        requires sized { IfSome op (λ x. length x.deps ≡ (machine_of self.old site).size) }
        ensures { IfOk result (λ judged. IsJudgedAt site (judge_offer deps op (is_new reply.now) dot
            (machine_of self.old site)) reply.now judged self.old self.new) }
    {
        offered_at(&mut self.seats, site, dot, deps, op, reply)
    }

    // A vote that is taken.
    fn voted(&mut self, site: Site, vote: Vote, reply: &Reply) -> Result<Judged, Memory>
        requires { site ≤ self.old.trace.sites }
        ensures { IfOk result (λ judged. IsJudgedAt site (judge (histories_of self.old) (states_of self.old) site
            (machine_of self.old site) (TookVote vote) reply.now) reply.now judged self.old self.new) }
    {
        if is_misaddressed(&vote, site) {
            return Ok(Judged::Lost);
        }
        voted_at(&mut self.seats, site, vote, reply)
    }

    // What waited is to be taken up.
    fn went(&mut self, site: Site, reply: &Reply) -> Result<Judged, Memory>
        requires within { site ≤ self.old.trace.sites }
        requires replaying { IsReplaying self.old }
        ensures { IfOk result (λ judged. IsJudgedAt site (judge (histories_of self.old) (states_of self.old) site
            (machine_of self.old site) WentOn reply.now) reply.now judged self.old self.new) }
    {
        let Some(dot) = taken_of(reply) else {
            return Ok(idle_at(&self.seats, site, reply));
        };
        if is_of(dot, site) {
            return Ok(Judged::Lost);
        }
        self.is_placed(site);
        let deps = self.deps(dot);
        let op = self.made_op(dot);
        self.take_up(site, deps, op, reply)
    }

    // The operation that is said to have waited.
    fn take_up(
        &mut self,
        site: Site,
        deps: Option<Vector>,
        op: Option<Op>,
        reply: &Reply,
    ) -> Result<Judged, Memory>
        requires within { site ≤ self.old.trace.sites }
        requires sized { IfSome op (λ x. length x.deps ≡ (machine_of self.old site).size) }
        requires apart { IfSome op (λ x. x.dot.site ≢ (machine_of self.old site).site) }
        requires outlined { IfSome op (IsOutlineAt (machine_of self.old site)) }
        ensures { IfOk result (λ judged. IsJudgedAt site (judge_taken deps op (machine_of self.old site)) reply.now
            judged self.old self.new) }
    {
        taken_at(&mut self.seats, site, deps, op, reply)
    }

    // What is known of the machine of a site wherever a replay comes.
    fn is_placed(&self, site: Site)
        requires within { site ≤ self.now.trace.sites }
        requires replaying { IsReplaying self.now }
        ensures size { (machine_of self.now site).size ≡ length (histories_of self.now) }
        ensures site { (machine_of self.now site).site ≡ site }
        ensures outlines { (x : OpValue) → made_deps (histories_of self.now) x.dot ≡ Some x.deps
            → IsOutlineAt (machine_of self.now site) x }
    {
        let _ = &self.trace;
        // a site has a number
        site.place();
    }

    // What the operation with this dot depends on, where an entry of its site made it.
    fn deps(&self, dot: Dot) -> Option<Vector>
        ensures deps { result ≡ made_deps (histories_of self.now) dot }
        ensures fit { IfSome result (λ v. (length v ≡ length (histories_of self.now)) × IsOp (outline dot v)) }
    {
        // a site has a number
        dot.site.place();
        self.made.deps(dot)
    }

    // The operation with this dot, where its site has made it by now.
    fn made_op(&self, dot: Dot) -> Option<Op>
        requires { IsReplaying self.now }
        ensures op { result ≡ made_op (states_of self.now) dot }
        ensures fit { IfSome result (λ x. (length x.deps ≡ length (histories_of self.now)) × (x.dot ≡ dot)
            × (made_deps (histories_of self.now) x.dot ≡ Some x.deps)) }
    {
        let _ = &self.trace;
        self.found_op(dot)
    }

    // The same: it stands in the log of its site.
    fn found_op(&self, dot: Dot) -> Option<Op>
        ensures op { result ≡ made_op (states_of self.now) dot }
        ensures some { 0 < dot.site }
    {
        op_at(&self.seats, dot)
    }
}

// Whether the operation with this dot is the site's own.
fn is_of(dot: Dot, site: Site) -> bool
    ensures { result ≡ (dot.site == site) }
{
    dot.site.number() == site.number()
}

fn is_done(judged: Judged) -> bool
    ensures { IsTrue result ↔ (judged ≡ Judged.Done) }
{
    matches!(judged, Judged::Done)
}

// Whether the vote is the site's own, or on another site's proposal.
fn is_misaddressed(vote: &Vote, site: Site) -> bool
    ensures { result ≡ (vote.now.voter == site || not (vote.now.proposal.site == site)) }
{
    vote.voter.number() == site.number() || vote.proposal.site.number() != site.number()
}

// The operation that is said to have waited.
fn taken_of(reply: &Reply) -> Option<Dot>
    ensures { result ≡ taken_of reply.now }
{
    match reply {
        Reply::Taken { dot } => Some(*dot),
        _ => None,
    }
}
