ghost use Rattle.std.specs.Prelude.{◌≡◌};
ghost use Rattle.td_reader.specs.Reached.{begins, ends, next_did, next_editor, next_entry, next_history, next_text};
ghost use Rattle.td_reader.specs.Reached.{nothing_read, reached_by};
ghost use Rattle.td_reader.specs.Said.{said_by};

use crate::line::ReadLine;

/// How far the lines of a trace have come.
#[derive(Clone, Copy, Debug, PartialEq, Eq)]
pub(crate) struct Reached {
    is_begun: bool,
    sites: u8,
    // the site of the last history, or 0
    site: u8,
    // how many entries the last history has
    entries: u64,
    editors: u32,
    texts: u8,
    is_ended: bool,
}

impl Reached {
    /// No line was read.
    pub(crate) fn nothing() -> Reached
        ensures { result ≡ nothing_read }
    {
        Reached {
            is_begun: false,
            sites: 0,
            site: 0,
            entries: 0,
            editors: 0,
            texts: 0,
            is_ended: false,
        }
    }

    /// Whether the last line was read.
    pub(crate) fn is_ended(self) -> bool
        ensures { result ≡ self.is_ended }
    {
        self.is_ended
    }

    /// How many sites there are.
    pub(crate) fn sites(self) -> u8
        ensures { result ≡ self.sites }
    {
        self.sites
    }

    /// With one more line, where it can be the next.
    pub(crate) fn by(self, line: &ReadLine<'_>) -> Option<Reached>
        ensures { result ≡ reached_by self (said_by line.now) }
    {
        match line {
            ReadLine::Sites { n } => self.begins(*n),
            ReadLine::Site { site } => self.next_history(site.number()),
            ReadLine::Entry { number, .. } => self.next_entry(*number),
            ReadLine::Editor { number, home } => self.next_editor(*number, home.number()),
            ReadLine::Call { .. } | ReadLine::Look { .. } => self.next_did(),
            ReadLine::Text { site, .. } => self.next_text(site.number()),
            ReadLine::End => self.ends(),
        }
    }

    fn begins(self, n: u8) -> Option<Reached>
        ensures { result ≡ begins self n }
    {
        if self.is_begun {
            return None;
        }
        let mut next = Reached::nothing();
        next.is_begun = true;
        next.sites = n;
        Some(next)
    }

    fn next_history(self, site: u8) -> Option<Reached>
        ensures { result ≡ next_history self site }
    {
        if site == 0 || site - 1 != self.site || site > self.sites {
            return None;
        }
        let mut next = self;
        next.site = site;
        next.entries = 0;
        Some(next)
    }

    fn next_entry(self, number: u64) -> Option<Reached>
        ensures { result ≡ next_entry self number }
    {
        if number == 0 || number - 1 != self.entries {
            return None;
        }
        if self.site == 0 || self.editors != 0 || self.texts != 0 {
            return None;
        }
        let mut next = self;
        next.entries = number;
        Some(next)
    }

    fn next_editor(self, number: u32, home: u8) -> Option<Reached>
        ensures { result ≡ next_editor self number home }
    {
        if number == 0 || number - 1 != self.editors {
            return None;
        }
        if home > self.sites || self.site != self.sites || self.texts != 0 {
            return None;
        }
        let mut next = self;
        next.editors = number;
        Some(next)
    }

    fn next_did(self) -> Option<Reached>
        ensures { result ≡ next_did self }
    {
        if self.editors == 0 || self.texts != 0 {
            return None;
        }
        Some(self)
    }

    fn next_text(self, site: u8) -> Option<Reached>
        ensures { result ≡ next_text self site }
    {
        if site == 0 || site - 1 != self.texts || site > self.sites || self.site != self.sites {
            return None;
        }
        let mut next = self;
        next.texts = site;
        Some(next)
    }

    fn ends(self) -> Option<Reached>
        ensures { result ≡ ends self }
    {
        if !self.is_begun || self.is_ended {
            return None;
        }
        if self.site != self.sites || self.texts != self.sites {
            return None;
        }
        let mut next = self;
        next.is_ended = true;
        Some(next)
    }
}
