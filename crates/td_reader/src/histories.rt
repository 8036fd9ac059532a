// What a trace tells by site and entry.
ghost use Rattle.std.specs.Prelude.{◌≡◌, ◌≤◌, ◌<◌, ◌-◌, ◌+◌, ◌^◌, [], MatchOption, None, Some};
ghost use Rattle.std.specs.Prelude.{get_or, length, slice_get, take};
ghost use Rattle.td_reader.specs.Form.{said};
ghost use Rattle.td_reader.specs.LineNumbers.{history_lines, line_of_entry};

use crate::places::ReadTrace;
use td_base::Site;
use td_trace::TraceEntry;

impl ReadTrace<'_> {
    /// How many entries the history of the site has; none where there is no such site. Takes no memory.
    pub fn entries(&self, site: Site) -> u32
        ensures { result ≡ length (get_or self.now.histories (site - 1) []) }
    {
        if site.number() > self.sites() {
            return 0;
        }
        self.size(site.place()).unwrap_or(0)
    }

    /// The entry of the site at this place, from 0. None from the number of its entries on. Takes no memory.
    pub fn entry(&self, site: Site, k: u32) -> Option<TraceEntry>
        ensures { result ≡ slice_get (get_or self.now.histories (site - 1) []) k }
    {
        if k >= self.entries(site) {
            return None;
        }
        let begin = self.history_begin(site);
        self.line(begin as usize + 1 + k as usize)?.entry()
    }

    /// The number of the line, from 1, of the entry of the site with this number, from 1. Takes no memory.
    pub fn line_of_entry(&self, site: Site, k: u32) -> u32
        requires some { 0 < k }
        requires within { k ≤ length (get_or self.now.histories (site - 1) []) }
        ensures { result ≡ line_of_entry self.now site k }
    {
        self.history_begin(site) + 1 + k
    }

    // The line, from 0, at which the history of the site begins.
    fn history_begin(&self, site: Site) -> u32
        requires { 0 < length (get_or self.now.histories (site - 1) []) }
        ensures begin { result ≡ 1 + history_lines (take (site - 1) self.now.histories) }
        ensures few { length (said self.now) < 2 ^ 32 }
    {
        self.begin(site.place()).unwrap()
    }
}
