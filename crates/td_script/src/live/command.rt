use crate::live::editor_line::EditorLine;
use crate::live::script::Loss;
use td_base::Site;

/// A command of a live script.
#[derive(Debug, Drop)]
pub(crate) enum LiveCommand {
    /// `sites N`: the number of sites, first and once.
    Sites { n: u8 },
    /// `turns T`: the turns of each actor.
    Turns { turns: u32 },
    /// `loss D W`: what the links between workers lose and double.
    Loss { loss: Loss },
    /// `editor R`: the next editor, at the site.
    Editor { site: Site },
    /// A line of an editor, who counts from 1.
    Line { editor: u32, line: EditorLine },
}
