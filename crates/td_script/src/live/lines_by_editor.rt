ghost use Rattle.std.specs.Prelude.{◌≡◌, ◌≤◌, ◌+◌, ◌-◌, ◌++◌, ◌∷◌, [], length, sum_by, OnOk, OnErr};
ghost use Rattle.std.specs.Int.{IsInRange};
ghost use Rattle.td_script.specs.LiveFaults.{lines_of_editor, with_line};
ghost use Rattle.td_script.specs.LiveScript.{calls};

use crate::live::editor_line::EditorLine;
use crate::live::editor_lines::EditorLines;
use crate::live::script::MAX_CALLS;
use std::alloc::Global;
use std::marker::Model;
use td_base::Memory;

/// The lines of each editor, in the order of the editors.
#[derive(Debug, Drop)]
pub struct LinesByEditor {
    items: Vec<EditorLines>,
}

impl Model for LinesByEditor {
    ghost use Rattle.std.specs.Prelude.{List};
    ghost use Rattle.td_script.specs.declared.live.editor_line.EditorLine.{EditorLine};

    ghost Value = { List (List EditorLine) };

    ghost view = { λ l. l.items.items };
}

impl LinesByEditor {
    /// No editors. Takes no memory.
    pub fn new(alloc: Global) -> LinesByEditor
        ensures { result ≡ [] }
    {
        LinesByEditor {
            items: Vec::new(alloc),
        }
    }

    /// Adds an editor without lines at the end.
    pub(crate) fn add_editor(&mut self, alloc: Global) -> Result<(), Memory>
        ensures { OnOk result (self.new ≡ self.old ++ [] ∷ []) }
    {
        self.items.push(EditorLines::new(alloc))?;
        Ok(())
    }

    /// Adds the line behind those of the editor, who counts from 1.
    pub(crate) fn push(&mut self, editor: u32, line: EditorLine) -> Result<(), Memory>
        requires editor { IsInRange 1 (length self.old) editor }
        requires calls { sum_by calls (lines_of_editor self.old editor) + calls line ≤ MAX_CALLS }
        ensures { OnOk result (self.new ≡ with_line self.old editor line) }
    {
        self.items[editor as usize - 1].push(line)
    }

    /// The sum of what the editor's lines add to its calls.
    pub(crate) fn calls_of(&self, editor: u32) -> u32
        ensures value { result ≡ sum_by calls (lines_of_editor self.now editor) }
        ensures bound { result ≤ MAX_CALLS }
    {
        match self.items.get(editor.saturating_sub(1) as usize) {
            Some(lines) => lines.calls(),
            None => 0,
        }
    }

    /// The lines of each editor, in the order of the editors.
    pub fn as_slice(&self) -> &[EditorLines]
        ensures { result.now ≡ self.now }
    {
        &self.items
    }

    /// The lines of each editor, in the order of the editors. Takes no memory.
    pub fn into_vec(self) -> Vec<EditorLines>
        ensures { result.items ≡ self }
    {
        self.items
    }
}
