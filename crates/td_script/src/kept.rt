// The language of kept scripts: what kept replicas do of the language of `play`, and crashes.
mod before;
mod command;
mod commands;
mod language;
mod laws;
mod read_line;
mod script;
mod word;

pub use command::KeptCommand;
pub use commands::KeptCommands;
pub use laws::{
    kept_scripts_have_no_fault, spelled_kept_scripts_are_unique,
    written_kept_scripts_are_read_again,
};
pub use script::{DISK_CALLS, KeptScript, MAX_CRASHES, read_kept};
