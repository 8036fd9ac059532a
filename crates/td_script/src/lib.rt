//! The language in which a script of `play` is written: from the bytes of a script to its commands.
//!
//! `read_script` answers the commands that the bytes spell, or the first faulty line with the first thing wrong with
//! it. Begin at `specs/Spelling.antt`, the line of each command, and `specs/Script.antt`, the grammar;
//! `specs/Faults.antt` is the order in which a line is judged. The readers of lines, words, numbers and texts know no
//! command: `language` alone does. `live` has the language of live scripts, `kept` that of kept scripts, and `shell` that
//! of a shell at one site.
#![tactic(auto)]

mod argument;
mod before;
mod command;
mod commands;
mod hex;
mod kept;
mod kind;
mod language;
mod laws;
mod line;
mod live;
mod number;
mod quoted;
mod read_line;
mod script;
mod shared;
mod shell;
mod word;

pub use command::{Command, Place};
pub use commands::Commands;
pub use kept::{
    DISK_CALLS, KeptCommand, KeptCommands, KeptScript, MAX_CRASHES, kept_scripts_have_no_fault,
    read_kept, spelled_kept_scripts_are_unique, written_kept_scripts_are_read_again,
};
pub use kind::{Kind, LineFault, ScriptFault};
pub use laws::{scripts_have_no_fault, spelled_scripts_are_unique, written_scripts_are_read_again};
pub use live::{
    DEFAULT_TURNS, EditorLine, EditorLines, Homes, LinesByEditor, Live, Loss, MAX_ALL_CALLS,
    MAX_CALLS, MAX_EDITORS, MAX_LIVE_SCRIPT, MAX_TURNS, NO_LOSS, live_scripts_have_no_fault,
    read_live, spelled_live_scripts_are_fit, spelled_live_scripts_are_unique,
    written_live_scripts_are_read_again,
};
pub use number::{MAX_DIGITS, number_of};
pub use script::{
    MAX_LINE, MAX_MIDDLE_REQUESTS, MAX_SCRIPT, MAX_WIDE_REQUESTS, MAX_WIDE_SCRIPT, Script,
    read_script,
};
pub use shell::{ShellCommand, read_shell_line};
