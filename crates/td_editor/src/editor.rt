ghost use Rattle.std.specs.Prelude.{◌≡◌, ◌≤◌, [], Some, IfOk, OnOk, OnErr};
ghost use Rattle.std.specs.Option.{option_to_list};
ghost use Rattle.td_base.specs.declared.site.TheConstants.{MAX_SITE};
ghost use Rattle.td_path.specs.declared.slot.Slot.TheVariants.{Root};
ghost use Rattle.td_op.specs.declared.change.Change.{Change};
ghost use Rattle.td_op.specs.declared.input.Input.TheVariants.{Local};
ghost use Rattle.td_op.specs.declared.request.Request.TheVariants.{Insert, Paste, Delete, Propose, Cancel};
ghost use Rattle.td_replica.specs.Replica.{new_replica};
ghost use Rattle.td_doc.specs.Document.{live_atoms};
ghost use Rattle.td_editor.specs.Screens.{hear_all, IsInRange};
ghost use Rattle.td_editor.specs.Due.{MayTake};
ghost use Rattle.td_editor.specs.Editors.{IsEditor, reply_to, after_input};

use crate::screen::Screen;
use std::alloc::Global;
use std::marker::Model;
use td_base::{Atom, Dot, Memory, Run, Site};
use td_doc::Doc;
use td_op::{Change, Input, Reply, Request};
use td_path::Slot;
use td_replica::Replica;

/// A replica with a screen, which hears of each change of the atoms shown. Contracts see an `EditorValue`.
#[derive(Drop)]
pub struct Editor<D: Doc, S: Screen> {
    replica: Replica<D>,
    screen: S,
}

impl<D: Doc, S: Screen> Model for Editor<D, S> {
    ghost use Rattle.td_editor.specs.Editors.{EditorValue, IsEditor};

    ghost Value = { EditorValue S.State };

    ghost view = { λ e. record { replica = e.replica; screen = S.state e.screen } };

    ghost invariant = { λ e. IsEditor S.shows (record { replica = e.replica; screen = S.state e.screen }) };
}

impl<D: Doc, S: Screen> Editor<D, S> {
    /// The editor of a site among n, which has done nothing, with a screen that shows nothing.
    pub fn new(alloc: Global, site: Site, n: u8, screen: S) -> Result<Editor<D, S>, Memory>
        requires small { n ≤ MAX_SITE }
        requires within { site ≤ n }
        requires blank { S.shows (S.state screen) [] }
        ensures { IfOk result (λ e. e ≡ record { replica = new_replica site n; screen = S.state screen }) }
    {
        let replica = Replica::new(alloc, site, n)?;
        Ok(Editor { replica, screen })
    }

    /// The replica.
    pub fn replica(&self) -> &Replica<D>
        ensures { result.now ≡ self.now.replica }
    {
        &self.replica
    }

    /// The screen, which shows the atoms of the replica.
    pub fn screen(&self) -> &S
        ensures screen { S.state result.now ≡ self.now.screen }
        ensures shown { S.shows (S.state result.now) (live_atoms self.now.replica.machine.doc) }
        ensures editor { IsEditor S.shows self.now }
    {
        &self.screen
    }

    /// Takes the screen out, and puts another one in its place.
    pub fn replace(&mut self, screen: S) -> S
        requires { S.shows (S.state screen) (live_atoms self.old.replica.machine.doc) }
        ensures out { S.state result ≡ self.old.screen }
        ensures put { self.new ≡ record { replica = self.old.replica; screen = S.state screen } }
    {
        std::mem::replace(&mut self.screen, screen)
    }

    /// Types an atom at an index, as far as the end. Replies Made, Position, Held or Limit.
    pub fn insert(&mut self, index: u32, atom: Atom) -> Result<Reply, Memory>
        ensures reply { IfOk result (λ reply. reply ≡ reply_to (Local (Insert index atom)) self.old) }
        ensures ok { OnOk result (self.new ≡ after_input S.heard (Local (Insert index atom)) self.old) }
        ensures err { OnErr result (self.new ≡ self.old) }
    {
        self.request(Request::Insert { index, atom })
    }

    /// Pastes the atoms of a run at an index, as far as the end. Replies Made, Position, Held or Limit.
    pub fn paste(&mut self, index: u32, run: Run) -> Result<Reply, Memory>
        ensures reply { IfOk result (λ reply. reply ≡ reply_to (Local (Paste index run)) self.old) }
        ensures ok { OnOk result (self.new ≡ after_input S.heard (Local (Paste index run)) self.old) }
        ensures err { OnErr result (self.new ≡ self.old) }
    {
        self.request(Request::Paste { index, run })
    }

    /// Deletes the atom at an index. Replies Made, Position, Held or Limit.
    pub fn delete(&mut self, index: u32) -> Result<Reply, Memory>
        ensures reply { IfOk result (λ reply. reply ≡ reply_to (Local (Delete index)) self.old) }
        ensures ok { OnOk result (self.new ≡ after_input S.heard (Local (Delete index)) self.old) }
        ensures err { OnErr result (self.new ≡ self.old) }
    {
        self.request(Request::Delete { index })
    }

    /// Proposes to flatten the whole document. Replies Made, Held or Limit.
    pub fn flatten(&mut self) -> Result<Reply, Memory>
        ensures reply { IfOk result (λ reply. reply ≡ reply_to (Local (Propose Root)) self.old) }
        ensures ok { OnOk result (self.new ≡ after_input S.heard (Local (Propose Root)) self.old) }
        ensures err { OnErr result (self.new ≡ self.old) }
    {
        self.request(Request::Propose { slot: Slot::Root })
    }

    /// Gives up an own proposal. Replies Cancelled or NotOpen.
    pub fn cancel(&mut self, proposal: Dot) -> Result<Reply, Memory>
        ensures reply { IfOk result (λ reply. reply ≡ reply_to (Local (Cancel proposal)) self.old) }
        ensures ok { OnOk result (self.new ≡ after_input S.heard (Local (Cancel proposal)) self.old) }
        ensures err { OnErr result (self.new ≡ self.old) }
    {
        self.request(Request::Cancel { proposal })
    }

    /// What the user asks for, of whichever kind.
    pub fn request(&mut self, request: Request) -> Result<Reply, Memory>
        ensures reply { IfOk result (λ reply. reply ≡ reply_to (Local request) self.old) }
        ensures ok { OnOk result (self.new ≡ after_input S.heard (Local request) self.old) }
        ensures err { OnErr result (self.new ≡ self.old) }
    {
        self.step(&Input::Local(request))
    }

    // One step of the machine, of which the screen hears. Room for the change is made first, so that it is not lost.
    pub(crate) fn step(&mut self, input: &Input) -> Result<Reply, Memory>
        requires { MayTake self.old.replica.machine input.now }
        ensures reply { IfOk result (λ reply. reply ≡ reply_to input.now self.old) }
        ensures ok { OnOk result (self.new ≡ after_input S.heard input.now self.old) }
        ensures err { OnErr result (self.new ≡ self.old) }
    {
        input.is_in_range();
        let _entries = self.replica.entries();
        self.screen.reserve()?;
        let reply = self.replica.step_on(input)?;
        tell(&mut self.screen, self.replica.last_change());
        Ok(reply)
    }
}

// The screen hears of what a step did, if it did anything.
fn tell<S: Screen>(screen: &mut S, change: Option<Change>)
    requires range { (told : Change) → change ≡ Some told → IsInRange S.shows (S.state screen.old) told }
    requires room { S.has_room screen.old }
    ensures { S.state screen.new ≡ hear_all S.heard (option_to_list change) (S.state screen.old) }
{
    if let Some(change) = change {
        screen.change(&change);
    }
}
