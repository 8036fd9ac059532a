ghost use Rattle.std.specs.Prelude.{◌≡◌, ◌≢◌, ◌↔◌, ◌<◌, ◌≤◌, false, length, if◌then◌else◌, IfOk, OnOk, OnErr, Some};
ghost use Rattle.std.specs.Prelude.{IsTrue};
ghost use Rattle.td_base.specs.declared.site.TheConstants.{MAX_SITE};
ghost use Rattle.td_path.specs.declared.slot.Slot.TheVariants.{Root};
ghost use Rattle.td_op.specs.declared.body.Body.TheVariants.{Propose};
ghost use Rattle.td_op.specs.declared.input.Input.TheVariants.{Local, Take, Next};
ghost use Rattle.td_op.specs.declared.message.Message.TheVariants.{Vote as AVote, Op as AnOp};
ghost use Rattle.td_op.specs.Op.{OpValue};
ghost use Rattle.td_machine.specs.Machine.{Machine, start};
ghost use Rattle.td_machine.specs.Ready.{next_ready, waits};
ghost use Rattle.td_machine.specs.Step.{step};
ghost use Rattle.td_seat.specs.Seat.{up_of, IsOutlined};
ghost use Rattle.td_replica.specs.Replica.{after_step, is_idle};
ghost use Rattle.td_law_replay.specs.Judging.{take_waiting};
ghost use Rattle.td_law_replay.specs.Replies.{is_new};

use std::alloc::Global;
use std::marker::Model;
use td_base::{Dot, Memory, Site};
use td_causal::{Buffer, Offer};
use td_doc::Doc;
use td_op::{Input, Message, Op, Reply, Request, Vote, Why};
use td_replica::Replica;
use td_store::Ops;

/// A site in the replay of a trace, seen as its machine, in which an operation that waits is known by its dot and its
/// dependencies alone.
#[derive(Drop)]
pub struct Seat<D: Doc> {
    // nothing waits in it
    pub(crate) replica: Replica<D>,
    // outlines of what waits, and of what waited
    pub(crate) outlines: Ops,
    pub(crate) waiting: Buffer,
}

impl<D: Doc> Model for Seat<D> {
    ghost use Rattle.td_machine.specs.Machine.{Machine};
    ghost use Rattle.td_seat.specs.Seat.{seat_machine, IsSeat};

    ghost Value = { Machine };

    ghost view = { λ s. seat_machine s.replica s.outlines s.waiting };

    ghost invariant = { λ s. IsSeat s.replica s.outlines s.waiting };
}

impl<D: Doc> Seat<D> {
    /// The site of n at the beginning.
    pub fn new(alloc: Global, site: Site, n: u8) -> Result<Seat<D>, Memory>
        requires small { n ≤ MAX_SITE }
        requires within { site ≤ n }
        ensures { IfOk result (λ s. s ≡ start site n) }
    {
        Ok(Seat {
            replica: Replica::new(alloc, site, n)?,
            outlines: Ops::new(alloc, n),
            waiting: Buffer::new(alloc),
        })
    }

    /// A request of an editor.
    #[tactic(auto, using(crate::proofs::Beside::ask_reply, crate::proofs::Beside::ask_machine, crate::proofs::Beside::ask_keeps, crate::proofs::Sized::seat_stays))]
    pub fn ask(&mut self, request: Request) -> Result<Reply, Memory>
        ensures reply { IfOk result (λ reply. reply ≡ (step self.old (Local request)).reply) }
        ensures ok { OnOk result (self.new ≡ (step self.old (Local request)).machine) }
        ensures err { OnErr result (self.new ≡ self.old) }
    {
        step_of(&mut self.replica, &Input::Local(request))
    }

    /// A vote that is taken.
    #[tactic(auto, using(crate::proofs::Beside::count_beside, crate::proofs::Sized::seat_stays))]
    pub fn count(&mut self, vote: Vote) -> Result<Reply, Memory>
        ensures reply { IfOk result (λ reply. reply ≡ (step self.old (Take (AVote vote))).reply) }
        ensures ok { OnOk result (self.new ≡ (step self.old (Take (AVote vote))).machine) }
        ensures err { OnErr result (self.new ≡ self.old) }
    {
        step_of(&mut self.replica, &Input::Take(Message::Vote(vote)))
    }

    /// An operation that a line says to be new: whether it is; where it is not, nothing is done.
    #[tactic(auto, using(crate::proofs::Taking::taken_is, crate::proofs::Taking::taken_machine, crate::proofs::Taking::taken_keeps, crate::proofs::Taking::refused_same, crate::proofs::Taking::waiting_not_new, crate::proofs::Taking::late_not_new, crate::proofs::Sized::seat_stays))]
    pub fn take(&mut self, op: &Op) -> Result<bool, Memory>
        requires sized { length op.now.deps ≡ self.old.size }
        ensures is { IfOk result (λ new. new ≡ is_new (step self.old (Take (AnOp op.now))).reply) }
        ensures ok { IfOk result (λ new. self.new
            ≡ (if new then (step self.old (Take (AnOp op.now))).machine else self.old)) }
        ensures err { OnErr result (self.new ≡ self.old) }
    {
        self.is_sized();
        if self.waits(op.dot()) || !self.replica.have().covers(op.deps()) {
            return Ok(false);
        }
        let reply = step_of(&mut self.replica, &Input::Take(Message::Op(*op)))?;
        Ok(matches!(reply, Reply::New))
    }

    /// An operation that an entry says to wait, or to be known: its outline is offered. Where it is ready, or of this
    /// site, nothing is done.
    #[tactic(auto, using(crate::proofs::Knowing::room_seat))]
    pub fn know(&mut self, outline: &Op) -> Result<Reply, Memory>
        requires sized { length outline.now.deps ≡ self.old.size }
        requires outline { outline.now.body ≡ Propose Root }
        ensures reply { IfOk result (λ reply. reply ≡ (step self.old (Take (AnOp outline.now))).reply) }
        ensures ok { IfOk result (λ reply. is_new reply ≡ false
            → self.new ≡ (step self.old (Take (AnOp outline.now))).machine) }
        ensures err { OnErr result (self.new ≡ self.old) }
    {
        self.is_sized();
        let dot = outline.dot();
        if self.replica.have().has(dot) || self.waits(dot) {
            return Ok(Reply::Repeat);
        }
        let site = self.replica.site();
        if dot.site == site || outline.deps().get(site) > self.replica.made() {
            return Ok(Reply::Unfit { why: Why::Own });
        }
        self.outlines.reserve(1)?;
        let number = self.outlines.len();
        match self.waiting.offer(self.replica.have(), outline, number)? {
            Offer::Repeat => Ok(Reply::Repeat),
            Offer::Later => {
                self.outlines.push(outline);
                Ok(Reply::Later)
            }
            Offer::Ready => Ok(Reply::New),
        }
    }

    /// The operation that an entry says to have waited: it is taken, where the least that is ready is its outline.
    #[tactic(auto, using(crate::proofs::Resuming::outlined_by, crate::proofs::Resuming::idle_up, crate::proofs::Resuming::other_up))]
    pub fn take_up(&mut self, op: &Op) -> Result<Reply, Memory>
        requires sized { length op.now.deps ≡ self.old.size }
        requires apart { op.now.dot.site ≢ self.old.site }
        requires outlined { (y : OpValue) → next_ready self.old.have self.old.waiting ≡ Some y → y.dot ≡ op.now.dot
            → y.deps ≡ op.now.deps }
        ensures reply { IfOk result (λ reply. reply ≡ (take_waiting op.now self.old).reply) }
        ensures ok { OnOk result (self.new ≡ (take_waiting op.now self.old).machine) }
        ensures err { OnErr result (self.new ≡ self.old) }
    {
        self.is_sized();
        let Some(least) = self.waiting.next_ready(self.replica.have(), &self.outlines) else {
            return Ok(Reply::Idle);
        };
        if !is_same(least.op.dot(), op.dot()) {
            let dot = least.op.dot();
            return Ok(Reply::Taken { dot });
        }
        self.resume(op)
    }

    // Takes up the operation of which the least that is ready is the outline.
    #[tactic(auto, using(crate::proofs::Resuming::up_reply, crate::proofs::Resuming::up_machine, crate::proofs::Resuming::up_seat, crate::proofs::Resuming::up_bare))]
    fn resume(&mut self, op: &Op) -> Result<Reply, Memory>
        requires sized { length op.now.deps ≡ self.old.size }
        requires apart { op.now.dot.site ≢ self.old.site }
        requires outline { IsOutlined op.now self.old }
        ensures reply { IfOk result (λ reply. reply ≡ (take_waiting op.now self.old).reply) }
        ensures ok { OnOk result (self.new ≡ (take_waiting op.now self.old).machine) }
        ensures err { OnErr result (self.new ≡ self.old) }
    {
        let reply = step_of(&mut self.replica, &Input::Take(Message::Op(*op)))?;
        self.waiting.remove(op.dot());
        Ok(up_of(op.dot(), &reply))
    }

    /// Whether nothing that waits is ready. It takes no memory.
    pub fn is_idle(&self) -> bool
        ensures { result ≡ is_idle (step self.now Next).reply }
    {
        self.is_sized();
        !self.waiting.has_ready(self.replica.have(), &self.outlines)
    }

    // Whether an operation with the dot waits.
    #[tactic(auto, using(crate::proofs::Sized::seat_waits))]
    fn waits(&self, dot: Dot) -> bool
        ensures { result ≡ waits dot self.now.waiting }
    {
        self.waiting.waits(dot)
    }

    // What holds of its machine at every moment.
    #[tactic(auto, using(crate::proofs::Sized::sized))]
    pub(crate) fn is_sized(&self)
        ensures sized { length self.now.have ≡ self.now.size }
        ensures within { self.now.site ≤ self.now.size }
        ensures some { 0 < self.now.site }
    {
        // its history is legal
        let _ = self.replica.entries();
    }
}

// A step of a replica, which stays that of its site.
#[tactic(auto, using(crate::proofs::Sized::step_site, crate::proofs::Sized::step_size))]
fn step_of<D: Doc>(replica: &mut Replica<D>, input: &Input) -> Result<Reply, Memory>
    ensures reply { IfOk result (λ reply. reply ≡ (step replica.old.machine input.now).reply) }
    ensures ok { OnOk result (replica.new ≡ after_step input.now replica.old) }
    ensures err { OnErr result (replica.new ≡ replica.old) }
    ensures site { replica.new.machine.site ≡ replica.old.machine.site }
    ensures size { replica.new.machine.size ≡ replica.old.machine.size }
{
    input.is_in_range();
    // its history is legal
    let _ = replica.entries();
    replica.step_on(input)
}

// The reply to what waited, where this one is the reply to it without the waiting.
fn up_of(dot: Dot, reply: &Reply) -> Reply
    ensures { result ≡ up_of dot reply.now }
{
    match *reply {
        Reply::Unfit { why } => Reply::Dropped { dot, why },
        _ => Reply::Taken { dot },
    }
}

fn is_same(one: Dot, other: Dot) -> bool
    ensures { IsTrue result ↔ (one ≡ other) }
{
    one == other
}
