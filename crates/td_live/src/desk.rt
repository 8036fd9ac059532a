ghost use Rattle.std.specs.Prelude.{◌≡◌, ◌≤◌, sum_by};
ghost use Rattle.td_script.specs.LiveScript.{calls};
ghost use Rattle.td_live.specs.Desks.{IsDesk};
ghost use Rattle.td_live.specs.Turning.{IsUnused, new_desk};

use crate::agenda::Agenda;
use std::alloc::Global;
use std::marker::Model;
use td_line::Editor;
use td_script::EditorLines;
use td_trace::{Did, DidList};

/// An editor at work on its lines, with what it did so far. It may go to another thread. Contracts see a `DeskValue`.
#[derive(Drop)]
pub struct Desk {
    pub(crate) editor: Editor,
    pub(crate) agenda: Agenda,
    pub(crate) did: Vec<Did>,
    // the number of the last call, 0 before
    pub(crate) call: u32,
    // it has no answer yet
    pub(crate) waits: bool,
}

impl Model for Desk {
    ghost use Rattle.td_live.specs.Desks.{DeskValue};

    ghost Value = { DeskValue };

    ghost use Rattle.td_live.specs.Turning.{IsDeskParts};

    ghost view = { λ d. record {
      editor = d.editor;
      rest = d.agenda;
      did = d.did.items;
    } };

    ghost invariant = { λ d. IsDeskParts d.call d.waits (record {
      editor = d.editor;
      rest = d.agenda;
      did = d.did.items;
    }) };
}

impl Desk {
    /// The desk of an editor with these lines. Takes no memory.
    pub fn new(alloc: Global, editor: Editor, lines: EditorLines) -> Desk
        requires unused { IsUnused editor }
        requires calls { sum_by calls lines ≤ editor.calls }
        ensures { result ≡ new_desk editor lines }
    {
        Desk {
            editor,
            agenda: Agenda::new(lines),
            did: Vec::new(alloc),
            call: 0,
            waits: false,
        }
    }

    /// Its editor, what it has still to do, and what it did. Takes no memory.
    pub(crate) fn parts(self) -> (Editor, Agenda, DidList)
        ensures editor { result.0 ≡ self.editor }
        ensures rest { result.1 ≡ self.rest }
        ensures did { result.2 ≡ self.did }
        ensures desk { IsDesk self }
    {
        let Desk {
            editor,
            agenda,
            did,
            call: _,
            waits: _,
        } = self;
        (editor, agenda, DidList::of(did))
    }
}
