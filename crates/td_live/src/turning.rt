// What a desk does in a turn.
ghost use Rattle.std.specs.Prelude.{◌≡◌, Ok, IfOk, OnErr};
ghost use Rattle.std.specs.List.{concat};
ghost use Rattle.td_line.specs.Editors.{AwaitsAnswer, LaterEditor};
ghost use Rattle.td_live.specs.declared.next.Next.TheVariants as Next;
ghost use Rattle.td_live.specs.declared.went.Went.TheVariants as Went;
ghost use Rattle.td_live.specs.Agenda.{IsNextToDo};
ghost use Rattle.td_live.specs.Desks.{IsDesk, LaterDesk};
ghost use Rattle.td_live.specs.Turning.{IsAtEnd, IsTurn, Keeps};

use crate::desk::Desk;
use crate::next::Next;
use crate::went::Went;
use std::alloc::Global;
use std::sync::Wait;
use td_base::{Bytes, Memory};
use td_op::Request;
use td_trace::Did;
use td_view::Shown;

impl Desk {
    /// A turn: where a call is pending, its answer is polled once; else the next look is done, or the next call is
    /// sent. `Over` where neither is left.
    pub fn turn<R: Wait>(&mut self, rt: &R) -> Result<Went, Memory>
        ensures turn { IfOk result (λ went. IsTurn self.old went self.new) }
        ensures over { IsAtEnd self.old → result ≡ Ok Went.Over }
        ensures err { OnErr result (Keeps self.old self.new) }
        ensures later { LaterDesk self.old self.new }
        ensures desk { IsDesk self.new }
    {
        if self.waits {
            return self.poll(rt);
        }
        match self.agenda.next() {
            Next::Ask(request) => Ok(self.submit(rt, request)),
            Next::Look => self.look(),
            Next::Over => Ok(Went::Over),
        }
    }

    // Polls the answer to the call that is pending.
    fn poll<R: Wait>(&mut self, rt: &R) -> Result<Went, Memory>
        requires { AwaitsAnswer self.old.editor }
        ensures turn { IfOk result (λ went. IsTurn self.old went self.new) }
        ensures err { OnErr result (self.new ≡ self.old) }
        ensures later { LaterEditor self.old.editor self.new.editor }
        ensures desk { IsDesk self.new }
    {
        self.did.reserve(1)?;
        let Some(answer) = self.editor.poll(rt) else {
            return Ok(Went::Again);
        };
        self.did.push_reserved(Did::Call {
            call: self.call,
            entry: answer.entry,
        });
        self.agenda.replied(&answer.reply);
        self.waits = false;
        Ok(Went::Answered)
    }

    // Sends the call that is next.
    fn submit<R: Wait>(&mut self, rt: &R, request: Request) -> Went
        requires idle { AwaitsAnswer self.old.editor → ⊥ }
        requires next { IsNextToDo (Next.Ask request) self.old.rest }
        ensures turn { IsTurn self.old result self.new }
        ensures later { LaterEditor self.old.editor self.new.editor }
        ensures desk { IsDesk self.new }
    {
        match self.editor.submit(rt, request) {
            Ok(call) => {
                self.call = call;
                self.waits = true;
                Went::Submitted
            }
            // the queue is full: no call is pending, and its lines ask for no more calls than it may make
            Err(_) => Went::Again,
        }
    }

    // Does the look that is next.
    fn look(&mut self) -> Result<Went, Memory>
        requires idle { AwaitsAnswer self.old.editor → ⊥ }
        requires next { IsNextToDo Next.Look self.old.rest }
        ensures turn { IfOk result (λ went. IsTurn self.old went self.new) }
        ensures err { OnErr result (Keeps self.old self.new) }
        ensures later { LaterEditor self.old.editor self.new.editor }
        ensures desk { IsDesk self.new }
    {
        self.did.reserve(1)?;
        let alloc = *self.did.allocator();
        let Some(copy) = self.editor.look(|shown| copy_of(alloc, shown)) else {
            return Ok(Went::Again);
        };
        let (upto, text) = copy?;
        self.did.push_reserved(Did::Look {
            calls: self.call,
            upto,
            text,
        });
        self.agenda.looked();
        Ok(Went::Looked)
    }
}

// Behind how many entries the text is that is shown, and its bytes.
fn copy_of(alloc: Global, shown: &Shown) -> Result<(u64, Bytes), Memory>
    ensures { IfOk result (λ copy. (copy.0 ≡ shown.now.upto) × (copy.1 ≡ concat shown.now.atoms)) }
{
    let mut text = Bytes::new(alloc);
    shown.push_text(&mut text)?;
    Ok((shown.upto(), text))
}
