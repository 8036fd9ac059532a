ghost use Rattle.std.specs.Prelude.{IfOk};
ghost use Rattle.td_line.specs.Editors.{Belongs, IsNewLine, IsNewEditor};

use crate::ask::Ask;
use crate::editor::Editor;
use crate::line::Line;
use crate::report::Report;
use std::alloc::Global;
use td_base::{Memory, Site};
use td_link::link;
use td_view::Reader;

/// How many items a queue of a line can hold.
const PLACES: u32 = 2;

/// The two ends of a line to the editor with this number, who looks by this reader and may make so many calls.
pub fn open_line(
    alloc: Global,
    editor: u32,
    home: Site,
    reader: Reader,
    calls: u32,
) -> Result<(Line, Editor), Memory>
    ensures line { IfOk result (λ ends. IsNewLine editor reader.views ends.0) }
    ensures editor { IfOk result (λ ends. IsNewEditor home reader calls ends.1) }
    ensures belongs { IfOk result (λ ends. Belongs ends.0 ends.1) }
{
    let (asks, requests) = link::<Ask>(alloc, PLACES, ())?;
    let (sends, answers) = link::<Report>(alloc, PLACES, reader.mark())?;
    let line = Line {
        editor,
        asks: requests,
        answers: sends,
        ask: None,
        given: Vec::new(alloc),
        owed: false,
    };
    let editor = Editor {
        home,
        asks,
        answers,
        reader,
        entry: 0,
        made: 0,
        calls,
        polled: 0,
    };
    Ok((line, editor))
}
