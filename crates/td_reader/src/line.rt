ghost use Rattle.std.specs.Prelude.{◌≡◌};

use crate::editors::ReadDid;
use crate::quoted::Quoted;
use td_base::Site;
use td_trace::TraceEntry;

/// What a line of a trace says.
#[derive(Debug, Drop)]
pub enum ReadLine<'a> {
    /// How many sites there are, at most 64.
    Sites {
        n: u8,
    },
    /// What follows is the history of the site.
    Site {
        site: Site,
    },
    /// The entry with this number in the history.
    Entry {
        number: u64,
        entry: TraceEntry,
    },
    /// What follows is what the editor with this number did, at its site.
    Editor {
        number: u32,
        home: Site,
    },
    /// The call with this number is this entry of the site.
    Call {
        call: u64,
        entry: u64,
    },
    /// Behind so many calls, a look at the text behind so many entries of the site.
    Look {
        calls: u64,
        upto: u64,
        text: Quoted<'a>,
    },
    /// The text of the site at the end.
    Text {
        site: Site,
        text: Quoted<'a>,
    },
    /// The last line.
    End,
}

impl<'a> ReadLine<'a> {
    ghost use Rattle.std.specs.Prelude.{option_map};
    ghost use Rattle.td_reader.specs.Parts.{is_heading};
    ghost use Rattle.td_reader.specs.Said.{did_in, did_of, entry_in, home_in, said_by, text_in};

    /// Whether a history or what an editor did begins here.
    pub(crate) fn is_heading(&self) -> bool
        ensures { result ≡ is_heading (said_by self.now) }
    {
        matches!(self, ReadLine::Site { .. } | ReadLine::Editor { .. })
    }

    /// The entry, where it is the line of one.
    pub(crate) fn entry(&self) -> Option<TraceEntry>
        ensures { result ≡ entry_in (said_by self.now) }
    {
        match self {
            ReadLine::Entry { entry, .. } => Some(*entry),
            _ => None,
        }
    }

    /// The site of the editor, where it is the line of one.
    pub(crate) fn home(&self) -> Option<Site>
        ensures { result ≡ home_in (said_by self.now) }
    {
        match self {
            ReadLine::Editor { home, .. } => Some(*home),
            _ => None,
        }
    }

    /// What was done, where it is the line of a call or a look.
    pub(crate) fn into_did(self) -> Option<ReadDid<'a>>
        ensures { option_map did_of result ≡ did_in (said_by self.entry) }
    {
        match self {
            ReadLine::Call { call, entry } => Some(ReadDid::Call { call, entry }),
            ReadLine::Look { calls, upto, text } => Some(ReadDid::Look { calls, upto, text }),
            _ => None,
        }
    }

    /// The text, where it is the line of a text at the end.
    pub(crate) fn into_text(self) -> Option<Quoted<'a>>
        ensures { result ≡ text_in (said_by self.entry) }
    {
        match self {
            ReadLine::Text { text, .. } => Some(text),
            _ => None,
        }
    }
}
