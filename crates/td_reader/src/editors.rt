// What a trace tells by editor and deed.
ghost use Rattle.std.specs.Prelude.{◌≡◌, ◌≤◌, ◌<◌, ◌-◌, ◌+◌, ◌^◌, [], MatchOption, None, Some, option_and_then};
ghost use Rattle.std.specs.Prelude.{length, option_map, slice_get, take, unwrap_or};
ghost use Rattle.td_trace.specs.declared.log.EditorLog.{EditorLog};

use crate::places::ReadTrace;
use crate::quoted::Quoted;
use td_base::Site;

/// What an editor did.
#[derive(Debug, Drop)]
pub enum ReadDid<'a> {
    /// The call with this number, from 1, is this entry of the history of the editor's site.
    Call {
        call: u64,
        entry: u64,
    },
    /// A look behind so many answered calls, at the text behind so many entries of the site.
    Look {
        calls: u64,
        upto: u64,
        text: Quoted<'a>,
    },
}

impl<'a> ReadTrace<'a> {
    ghost use Rattle.td_reader.specs.Form.{said};
    ghost use Rattle.td_reader.specs.LineNumbers.{did_count, history_lines, line_of_did, log_lines};
    ghost use Rattle.td_reader.specs.Said.{did_of};

    /// How many editors there are. Takes no memory.
    pub fn editors(&self) -> u32
        ensures { result ≡ length self.now.logs }
    {
        (self.parts() - usize::from(self.sites())) as u32
    }

    /// The site of the editor at this place, from 0. None from the number of editors on. Takes no memory.
    pub fn home(&self, editor: u32) -> Option<Site>
        ensures { result ≡ option_map (λ (log : EditorLog). log.home) (slice_get self.now.logs editor) }
    {
        if editor >= self.editors() {
            return None;
        }
        let begin = self.log_begin(editor);
        self.line(begin as usize)?.home()
    }

    /// How many calls and looks the editor at this place, from 0, did; none where there is no such editor. Takes no
    /// memory.
    pub fn dids(&self, editor: u32) -> u32
        ensures { result ≡ unwrap_or (option_map did_count (slice_get self.now.logs editor)) 0 }
    {
        self.size(usize::from(self.sites()) + editor as usize)
            .unwrap_or(0)
    }

    /// What the editor at this place did at the place `j`, both from 0. None from the number of what it did on. Takes
    /// no memory.
    pub fn did(&self, editor: u32, j: u32) -> Option<ReadDid<'a>>
        ensures { option_map did_of result
            ≡ option_and_then (λ (log : EditorLog). slice_get log.did j) (slice_get self.now.logs editor) }
    {
        if j >= self.dids(editor) {
            return None;
        }
        let begin = self.log_begin(editor);
        self.line(begin as usize + 1 + j as usize)?.into_did()
    }

    /// The number of the line, from 1, of what the editor did as its `j`th. Editors and what they did are numbered
    /// from 1. Takes no memory.
    pub fn line_of_did(&self, editor: u32, j: u32) -> u32
        requires some { (0 < editor) × (0 < j) }
        requires within { j ≤ unwrap_or (option_map did_count (slice_get self.now.logs (editor - 1))) 0 }
        ensures { result ≡ line_of_did self.now editor j }
    {
        self.log_begin(editor - 1) + 1 + j
    }

    // The line, from 0, at which what the editor did begins.
    fn log_begin(&self, editor: u32) -> u32
        requires { editor < length self.now.logs }
        ensures begin { result ≡ 1 + history_lines self.now.histories + log_lines (take editor self.now.logs) }
        ensures few { length (said self.now) < 2 ^ 32 }
    {
        let part = usize::from(self.sites()) + editor as usize;
        self.begin(part).unwrap()
    }
}
