// One input, answered and entered.
ghost use Rattle.std.specs.Prelude.{◌≡◌, ◌<◌, ◌≤◌, ◌-◌, ◌++◌, ◌∷◌, [], length, IfOk, OnErr, IfSome, Bool, not};
ghost use Rattle.td_op.specs.declared.message.Message.{Message as MessageValue};
ghost use Rattle.td_op.specs.declared.input.Input.TheVariants.{Take, Next};
ghost use Rattle.td_op.specs.Input.{IsInput};
ghost use Rattle.td_machine.specs.Step.{step};
ghost use Rattle.td_machine.specs.Parts.{Anything, IsBuilt};
ghost use Rattle.td_history.specs.Past.{IsDoneAs};
ghost use Rattle.td_replica.specs.Parts.{IsAsBefore};
ghost use Rattle.td_replica.specs.Replica.{is_repeat};
ghost use Rattle.td_replica.specs.Steps.{IsStep};

use crate::done::Done;
use crate::state::State;
use td_base::Memory;
use td_coord::Counted;
use td_doc::Doc;
use td_op::{Input, Message, Reply};

impl<D: Doc> State<D> {
    /// The machine's step, all but the entry.
    pub(crate) fn answer_input(&mut self, input: &Input) -> Result<Done, Memory>
        requires built { IsBuilt Anything self.old.machine.site self.old.machine.size self.old.machine }
        requires valid { IsInput input.now }
        ensures ok { IfOk result (λ done. IsStep (step self.old.machine input.now) self.old self.new done) }
        ensures number { IfOk result (λ done. IfSome done.number (IsDoneAs self.new.ops input.now)) }
        ensures err { OnErr result (IsAsBefore self.old self.new) }
    {
        match input {
            Input::Local(request) => self.request(request),
            Input::Take(Message::Op(op)) => self.take_op(op),
            Input::Take(Message::Vote(vote)) => self.take_vote(vote),
            Input::Next => self.next(),
        }
    }

    /// The entry, in the room that the step left.
    pub(crate) fn enter(&mut self, input: &Input, reply: &Reply, number: Option<u32>)
        requires room { 1 ≤ self.old.room.things }
        requires stored { IfSome number (λ k. k < length self.old.ops) }
        requires done { IfSome number (IsDoneAs self.old.ops input.now) }
        ensures { self.new ≡ record self.old {
          entries = self.old.entries ++ record { input = input.now; reply = reply.now } ∷ [];
          room = record self.old.room { things = self.old.room.things - 1 };
        } }
    {
        self.past.enter(input, reply, number);
    }

    /// Whether the message is one that would be a repeat.
    pub(crate) fn known(&self, message: &Message) -> bool
        requires { IsBuilt Anything self.now.machine.site self.now.machine.size self.now.machine }
        ensures { result ≡ is_repeat (step self.now.machine (Take message.now)).reply }
    {
        match message {
            Message::Op(op) => {
                op.deps().size() == self.have.size()
                    && (self.have.has(op.dot()) || self.waits(op.dot()))
            }
            Message::Vote(vote) => {
                self.vote_misfit(vote).is_none() && self.tally.foresee(*vote) == Counted::Repeat
            }
        }
    }
}
