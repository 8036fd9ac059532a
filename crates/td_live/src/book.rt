// What an editor did so far, when the threads are done, and what is left of its lines.
ghost use Rattle.std.specs.Prelude.{◌≡◌, ◌<◌, ◌≤◌, ◌+◌, [], length, List, OnOk, IfOk};
ghost use Rattle.td_trace.specs.Editors.{further, nothing_yet};
ghost use Rattle.td_live.specs.declared.next.Next.TheVariants as What;
ghost use Rattle.td_live.specs.Agenda.{IsNextToDo};
ghost use Rattle.td_live.specs.Following.{Rest, Act, Leads, all_of, calls_left};
ghost use Rattle.td_live.specs.Books.{calls_done, log_of, with_call, with_look, brought_up};
ghost use Rattle.td_live.specs.Drafts.{CanBringUp};

use crate::agenda::Agenda;
use crate::next::Next;
use std::alloc::Global;
use std::marker::Model;
use td_base::{Bytes, Memory, Site};
use td_line::Answer;
use td_op::Reply;
use td_script::EditorLines;
use td_trace::{Did, DidList, EditorLog};

/// What an editor did so far, and what is left of its lines. Contracts see a `BookValue`.
#[derive(Debug, Drop)]
pub(crate) struct Book {
    home: Site,
    agenda: Agenda,
    did: DidList,
    // how many of these are calls
    calls: u32,
}

impl Model for Book {
    ghost use Rattle.std.specs.Prelude.{◌≡◌};
    ghost use Rattle.td_live.specs.Books.{BookValue, calls_done};

    ghost Value = { BookValue };

    ghost view = { λ b. record { home = b.home; rest = b.agenda; did = b.did } };

    ghost invariant = { λ b. b.calls ≡ calls_done b.did };
}

impl Book {
    /// The book of an editor of this site that did nothing yet. Takes no memory.
    pub(crate) fn new(alloc: Global, home: Site, lines: EditorLines) -> Book
        ensures { result ≡ record { home = home; rest = all_of lines; did = [] } }
    {
        Book {
            home,
            agenda: Agenda::new(lines),
            did: DidList::new(alloc),
            calls: 0,
        }
    }

    /// The book of an editor of this site that did this. Takes no memory: `Memory` only past `u32::MAX` calls, which
    /// no memory holds.
    pub(crate) fn of(home: Site, agenda: Agenda, did: DidList) -> Result<Book, Memory>
        ensures { IfOk result (λ b. b ≡ record { home = home; rest = agenda; did = did }) }
    {
        let calls = count_calls(did.as_slice())?;
        Ok(Book {
            home,
            agenda,
            did,
            calls,
        })
    }

    /// The site of the editor.
    pub(crate) fn home(&self) -> Site
        ensures { result ≡ self.now.home }
    {
        self.home
    }

    /// What is to do next: where no call is left of a line, the next line is begun. Takes no memory.
    pub(crate) fn next(&mut self) -> Next
        ensures next { IsNextToDo result self.new.rest }
        ensures rest { self.new ≡ record self.old { rest = self.new.rest } }
        ensures leads { (first : Rest) (acts : List Act) → Leads first acts self.old.rest → Leads first acts self.new.rest }
        ensures calls { calls_left self.new.rest ≤ calls_left self.old.rest }
    {
        self.agenda.next()
    }

    /// The call that was next is this entry, and got this reply.
    pub(crate) fn put_call(&mut self, entry: u64, reply: &Reply) -> Result<(), Memory>
        requires { 0 < length self.old.rest.asks }
        ensures { OnOk result (self.new ≡ with_call entry reply.now self.old) }
    {
        let call = next_call(self.calls)?;
        self.did.push(Did::Call { call, entry })?;
        self.calls = call;
        self.agenda.replied(reply);
        Ok(())
    }

    /// The look that was next was at this text, behind so many entries.
    pub(crate) fn put_look(&mut self, upto: u64, text: Bytes) -> Result<(), Memory>
        requires { IsNextToDo What.Look self.old.rest }
        ensures { OnOk result (self.new ≡ with_look upto text self.old) }
    {
        self.did.push(Did::Look {
            calls: self.calls,
            upto,
            text,
        })?;
        self.agenda.looked();
        Ok(())
    }

    /// Of all the answers of the editor it gets the one that it has not yet, where there is one.
    pub(crate) fn bring_up(&mut self, answers: &[Answer]) -> Result<(), Memory>
        requires { CanBringUp answers.now self.old }
        ensures { OnOk result (self.new ≡ brought_up answers.now self.old) }
    {
        match answers.get(self.calls as usize) {
            Some(answer) => self.put_call(answer.entry, &answer.reply),
            None => Ok(()),
        }
    }

    /// What the trace tells of it. Takes no memory.
    pub(crate) fn into_log(self) -> EditorLog
        ensures { result ≡ log_of self }
    {
        EditorLog {
            home: self.home,
            did: self.did,
        }
    }
}

// How many of them are calls.
fn count_calls(did: &[Did]) -> Result<u32, Memory>
    ensures { IfOk result (λ count. count ≡ calls_done did.now) }
{
    let mut count = 0;
    for one in did {
        count = count_one(count, one)?;
    }
    Ok(count)
}

fn count_one(count: u32, did: &Did) -> Result<u32, Memory>
    ensures { IfOk result (λ more. more ≡ (further (record nothing_yet { calls = count }) did.now).calls) }
{
    match did {
        Did::Call { .. } => next_call(count),
        Did::Look { .. } => Ok(count),
    }
}

// The number of the call behind so many.
fn next_call(calls: u32) -> Result<u32, Memory>
    ensures { IfOk result (λ call. call ≡ calls + 1) }
{
    if calls == u32::MAX {
        return Err(Memory);
    }
    Ok(calls + 1)
}
