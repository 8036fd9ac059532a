// The language of a shell, at one site: what `play` says without naming a site, and two commands of its own. A line is
// judged by itself, as it comes.
mod command;
mod language;
mod read_line;
mod word;

pub use command::ShellCommand;
pub use read_line::read_shell_line;
