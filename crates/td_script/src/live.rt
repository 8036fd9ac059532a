// The language of live scripts: editors, each of whom does lines at a site of its own.
mod before;
mod command;
mod editor_line;
mod editor_lines;
mod homes;
mod language;
mod laws;
mod lines_by_editor;
mod read_line;
mod script;
mod word;

pub use editor_line::EditorLine;
pub use editor_lines::EditorLines;
pub use homes::Homes;
pub use laws::{
    live_scripts_have_no_fault, spelled_live_scripts_are_fit, spelled_live_scripts_are_unique,
    written_live_scripts_are_read_again,
};
pub use lines_by_editor::LinesByEditor;
pub use script::{
    DEFAULT_TURNS, Live, Loss, MAX_ALL_CALLS, MAX_CALLS, MAX_EDITORS, MAX_LIVE_SCRIPT, MAX_TURNS,
    NO_LOSS, read_live,
};
