// Kept scripts played: sites whose inputs are kept on disks in memory, crashes, and what is printed.
mod crashing;
mod edits;
mod flattens;
mod giving;
mod outcome;
mod play;
mod player;
mod showing;

pub(crate) use play::play_kept;
