// What a person who waits for a live script is told.
use std::io::IsTerminal;
use std::rt::Stderr;
use std::sync::atomic::{AtomicU64, Ordering};
use td_base::Site;
use td_line::Gate;

// A line is told behind so many turns, so of the longest live script there are 64.
const TURNS: u64 = 100_000;

/// Tells on standard error how many turns the sites have made, where that is a terminal.
#[derive(Drop)]
pub(crate) struct Progress<'a, E> {
    rt: &'a E,
    is_read: bool,
    turns: AtomicU64,
}

impl<'a, E> Progress<'a, E> {
    /// No turn is made yet. Takes no memory.
    pub(crate) fn new(rt: &'a E, stderr: &Stderr) -> Progress<'a, E> {
        Progress {
            rt,
            is_read: stderr.is_terminal(),
            turns: AtomicU64::new(0),
        }
    }
}

impl<E: Eprint> Gate for Progress<'_, E> {
    fn before(&self, _site: Site, _editor: u32, _call: u32) {}

    fn after(&self, _site: Site, _editor: u32, _call: u32) {}

    fn turned(&self, _site: Site) {
        let turns = self.turns.fetch_add(1, Ordering::SeqCst).wrapping_add(1);
        if self.is_read && turns % TURNS == 0 {
            // what standard error does not take is let go
            let _told = eprintln!(self.rt; "treedoc: {turns} turns of sites are made");
        }
    }
}
