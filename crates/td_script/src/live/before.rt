ghost use Rattle.std.specs.Prelude.{◌≡◌, ◌≤◌, None, length, OnOk};
ghost use Rattle.td_script.specs.LiveFaults.{HasPlace, is_live_misplaced, live_after, live_start, sum_fault, surplus};
ghost use Rattle.td_script.specs.LiveScript.{live_from};

use crate::before::MAX_NARROW;
use crate::kind::Kind;
use crate::live::command::LiveCommand;
use crate::live::editor_line::EditorLine;
use crate::live::homes::Homes;
use crate::live::lines_by_editor::LinesByEditor;
use crate::live::script::{
    DEFAULT_TURNS, Live, Loss, MAX_ALL_CALLS, MAX_CALLS, MAX_EDITORS, NO_LOSS,
};
use crate::live::word::LiveWord;
use crate::script::MAX_WIDE_REQUESTS;
use std::alloc::Global;
use td_base::Memory;

/// What stands before a line of a live script.
#[derive(Drop)]
pub(crate) struct LiveBefore {
    /// How many sites there are: 0 before the command `sites`.
    pub sites: u8,
    /// What `turns` said.
    pub turns: Option<u32>,
    /// What `loss` said.
    pub loss: Option<Loss>,
    /// The editors that are declared.
    pub homes: Homes,
    /// Their lines.
    pub lines: LinesByEditor,
    /// The sum of the calls that these ask for.
    pub calls: u32,
}

impl LiveBefore {
    /// What stands before the first line.
    pub(crate) fn new(alloc: Global) -> LiveBefore
        ensures { result ≡ live_start }
    {
        LiveBefore {
            sites: 0,
            turns: None,
            loss: None,
            homes: Homes::new(alloc),
            lines: LinesByEditor::new(alloc),
            calls: 0,
        }
    }

    /// Whether a command that begins so must not stand here: `sites` stands first and once.
    pub(crate) fn is_misplaced(&self, word: LiveWord) -> bool
        ensures { result ≡ is_live_misplaced self.now.sites word }
    {
        match word {
            LiveWord::Sites => self.sites > 0,
            _ => self.sites == 0,
        }
    }

    /// The fault of a second `turns` or `loss`, and of one `editor` too many.
    pub(crate) fn surplus(&self, word: LiveWord) -> Option<Kind>
        ensures { result ≡ surplus self.now word }
    {
        match word {
            LiveWord::Turns if self.turns.is_some() => Some(Kind::Turns),
            LiveWord::Loss if self.loss.is_some() => Some(Kind::Loss),
            LiveWord::Editor if self.homes.len() >= MAX_EDITORS => Some(Kind::Editor),
            _ => None,
        }
    }

    /// The fault of a command that passes the sum of the requests, or a number of calls.
    pub(crate) fn sum_fault(&self, command: &LiveCommand) -> Option<Kind>
        requires { self.now.calls ≤ MAX_ALL_CALLS }
        ensures { result ≡ sum_fault self.now command.now }
    {
        let LiveCommand::Line { editor, line } = command else {
            return None;
        };
        let calls = u64::from(line.calls());
        let all = u64::from(self.calls) + calls;
        let own = u64::from(self.lines.calls_of(*editor)) + calls;
        if self.sites > MAX_NARROW && all > MAX_WIDE_REQUESTS {
            return Some(Kind::Size);
        }
        if own > u64::from(MAX_CALLS) || all > u64::from(MAX_ALL_CALLS) {
            return Some(Kind::Calls);
        }
        None
    }

    /// Adds the command, which can stand here, to what stands before the next line.
    pub(crate) fn put(&mut self, alloc: Global, command: LiveCommand) -> Result<(), Memory>
        requires pairs { length self.old.lines ≡ length self.old.homes }
        requires place { HasPlace self.old command }
        requires sums { sum_fault self.old command ≡ None }
        ensures { OnOk result (self.new ≡ live_after self.old command) }
    {
        match command {
            LiveCommand::Sites { n } => self.sites = n,
            LiveCommand::Turns { turns } => self.turns = Some(turns),
            LiveCommand::Loss { loss } => self.loss = Some(loss),
            LiveCommand::Editor { site } => {
                self.homes.push(site)?;
                self.lines.add_editor(alloc)?;
            }
            LiveCommand::Line { editor, line } => self.put_line(editor, line)?,
        }
        Ok(())
    }

    // Adds the line behind those of its editor.
    fn put_line(&mut self, editor: u32, line: EditorLine) -> Result<(), Memory>
        requires pairs { length self.old.lines ≡ length self.old.homes }
        requires place { HasPlace self.old (LiveCommand.Line editor line) }
        requires sums { sum_fault self.old (LiveCommand.Line editor line) ≡ None }
        ensures { OnOk result (self.new ≡ live_after self.old (LiveCommand.Line editor line)) }
    {
        self.calls += line.calls();
        self.lines.push(editor, line)
    }

    /// The live script, where no line is left.
    pub(crate) fn into_live(self) -> Live
        ensures { result ≡ live_from self.sites self.turns self.loss self.homes self.lines }
    {
        Live {
            sites: self.sites,
            turns: self.turns.unwrap_or(DEFAULT_TURNS),
            loss: self.loss.unwrap_or(NO_LOSS),
            homes: self.homes,
            lines: self.lines,
        }
    }
}
