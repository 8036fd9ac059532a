ghost use Rattle.std.specs.Prelude.{◌≡◌, ◌≤◌, ◌+◌, ◌++◌, ◌∷◌, [], sum_by, OnOk, OnErr};
ghost use Rattle.td_script.specs.LiveScript.{calls};

use crate::live::editor_line::EditorLine;
use crate::live::script::MAX_CALLS;
use std::alloc::Global;
use std::marker::Model;
use td_base::Memory;

/// The lines of one editor, in order. They ask for at most `MAX_CALLS` calls.
#[derive(Debug, Drop)]
pub struct EditorLines {
    items: Vec<EditorLine>,
    // the sum of what they add to the calls
    asked: u32,
}

impl Model for EditorLines {
    ghost use Rattle.std.specs.Prelude.{◌≡◌, ◌≤◌, List, sum_by};
    ghost use Rattle.td_script.specs.declared.live.editor_line.EditorLine.{EditorLine};
    ghost use Rattle.td_script.specs.declared.live.script.TheConstants.{MAX_CALLS};
    ghost use Rattle.td_script.specs.LiveScript.{calls};

    ghost Value = { List EditorLine };

    ghost view = { λ e. e.items.items };

    ghost invariant = { λ e. (e.asked ≡ sum_by calls e.items.items) × (e.asked ≤ MAX_CALLS) };
}

impl EditorLines {
    /// No lines. Takes no memory.
    pub fn new(alloc: Global) -> EditorLines
        ensures { result ≡ [] }
    {
        EditorLines {
            items: Vec::new(alloc),
            asked: 0,
        }
    }

    /// Adds the line at the end.
    pub fn push(&mut self, line: EditorLine) -> Result<(), Memory>
        requires { sum_by calls self.old + calls line ≤ MAX_CALLS }
        ensures ok { OnOk result (self.new ≡ self.old ++ line ∷ []) }
        ensures err { OnErr result (self.new ≡ self.old) }
    {
        let calls = line.calls();
        self.items.push(line)?;
        self.asked += calls;
        Ok(())
    }

    /// The sum of what the lines add to the calls of their editor: it makes at most so many.
    pub fn calls(&self) -> u32
        ensures value { result ≡ sum_by calls self.now }
        ensures bound { result ≤ MAX_CALLS }
    {
        self.asked
    }

    /// The lines, in order.
    pub fn as_slice(&self) -> &[EditorLine]
        ensures { result.now ≡ self.now }
    {
        &self.items
    }

    /// The lines, in order. Takes no memory.
    pub fn into_vec(self) -> Vec<EditorLine>
        ensures { result.items ≡ self }
    {
        self.items
    }
}
