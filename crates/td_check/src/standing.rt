// Where a replay stands: what is known of it between two entries, and where it stops.
ghost use Rattle.std.specs.Prelude.{◌≡◌, ◌<◌, ◌≤◌, ◌+◌, ℕ, nat_lt, length, IfOk, MatchOption, OnOk};
ghost use Rattle.td_base.specs.declared.site.TheConstants.{MAX_SITE};
ghost use Rattle.td_doc.specs.Document.{text_of};
ghost use Rattle.td_reader.specs.LineNumbers.{line_of_entry};
ghost use Rattle.td_reader.specs.Values.{IsTraceValue};
ghost use Rattle.td_law_replay.specs.Judging.{begin};
ghost use Rattle.td_law_replay.specs.Replay.{AllDone};
ghost use Rattle.td_law_replay.specs.Traced.{site_entries};
ghost use Rattle.td_check.specs.Course.{AreSeen, HasLooked, IsStuckAt};
ghost use Rattle.td_check.specs.Seated.{AreSeated};
ghost use Rattle.td_check.specs.Sites.{done_of, histories_of, machine_of, states_of};
ghost use Rattle.td_check.specs.declared.stop.Went.{Went};

use crate::looks::Looks;
use crate::replay::Replay;
use crate::stop::{Stop, Went};
use crate::verdict::Fault;
use std::alloc::Global;
use td_base::{Bytes, Memory, Site};
use td_doc::Doc;
use td_seat::Seat;

impl<'a, D: Doc> Replay<'a, D> {
    /// How many sites there are.
    pub(crate) fn sites(&self) -> u8
        ensures sites { result ≡ self.now.trace.sites }
        ensures some { 0 < result }
        ensures few { result ≤ MAX_SITE }
        ensures value { IsTraceValue self.now.trace }
    {
        self.trace.sites()
    }

    /// The seats of the sites, that of site s at place s - 1.
    pub(crate) fn seats(&self) -> &[Seat<D>]
        ensures { AreSeated self.now.trace.sites (states_of self.now) result.now }
    {
        &self.seats
    }

    /// The looks of the trace, of which those at the texts that sites begin with are compared.
    pub(crate) fn first_looks(&self, alloc: Global) -> Result<Looks, Memory>
        requires begun { states_of self.now ≡ begin (histories_of self.now) }
        requires none { (site : ℕ) → done_of self.now site ≡ 0 }
        ensures { IfOk result (AreSeen self.now) }
    {
        let mut looks = Looks::of(alloc, self.trace)?;
        for place in 0..self.sites() {
            self.look(alloc, Site::at(place), &mut looks)?;
        }
        Ok(looks)
    }

    /// Compares the looks at the text of the site behind the entries that it has done.
    pub(crate) fn look(&self, alloc: Global, site: Site, looks: &mut Looks) -> Result<(), Memory>
        requires { site ≤ self.now.trace.sites }
        ensures ok { OnOk result (HasLooked self.now site looks.old looks.new) }
        ensures some { 0 < site }
        ensures value { IsTraceValue self.now.trace }
        ensures most { done_of self.now site ≤ length (site_entries (histories_of self.now) site) }
    {
        let done = self.done_by(site);
        if !looks.is_due(site, done) {
            return Ok(());
        }
        let text = self.text(alloc, site)?;
        looks.see(self.trace, site, done, text.as_slice())
    }

    // How many of its entries the site has done.
    fn done_by(&self, site: Site) -> u32
        requires { site ≤ self.now.trace.sites }
        ensures done { result ≡ done_of self.now site }
        ensures some { 0 < site }
        ensures value { IsTraceValue self.now.trace }
        ensures most { done_of self.now site ≤ length (site_entries (histories_of self.now) site) }
    {
        // no more than there are
        let _ = &self.trace;
        self.done[site.place()]
    }

    // The text of the site.
    fn text(&self, alloc: Global, site: Site) -> Result<Bytes, Memory>
        requires { site ≤ self.now.trace.sites }
        ensures { IfOk result (λ text. text ≡ text_of (machine_of self.now site).doc) }
    {
        self.seats[site.place()].text(alloc)
    }

    /// Stopped at the next entry of the site.
    pub(crate) fn stopped(&self, site: Site, fault: Fault) -> Went
        requires within { site ≤ self.now.trace.sites }
        requires left { done_of self.now site < length (site_entries (histories_of self.now) site) }
        ensures stopped { result ≡ Went.Stopped (record {
          line = line_of_entry self.now.trace site (done_of self.now site + 1);
          fault = fault;
        }) }
        ensures some { 0 < site }
        ensures value { IsTraceValue self.now.trace }
        ensures most { done_of self.now site ≤ length (site_entries (histories_of self.now) site) }
    {
        self.done_by(site);
        let line = self.next_line(site);
        let stop = Stop { line, fault };
        Went::Stopped { stop }
    }

    // The line of the next entry of the site.
    fn next_line(&self, site: Site) -> u32
        requires within { site ≤ self.now.trace.sites }
        requires left { done_of self.now site < length (site_entries (histories_of self.now) site) }
        ensures { result ≡ line_of_entry self.now.trace site (done_of self.now site + 1) }
    {
        let entries = self.trace.entries(site);
        let done = self.done_by(site);
        if done >= entries {
            return 0;
        }
        self.trace.line_of_entry(site, done + 1)
    }

    /// Where nothing more can be done: at the next entry of the first site that has one left. None at the end.
    pub(crate) fn stuck(&self) -> Option<Stop>
        ensures stuck { MatchOption result (AllDone (histories_of self.now) (states_of self.now)) (IsStuckAt self.now) }
        ensures within { (site : ℕ) → 0 < site → site ≤ self.now.trace.sites
            → done_of self.now site ≤ length (site_entries (histories_of self.now) site) }
    {
        // there are as many histories
        let _ = &self.trace;
        for place in 0..self.sites() {
            let site = Site::at(place);
            if self.has_left(site) {
                return Some(Stop {
                    line: self.next_line(site),
                    fault: Fault::Missing,
                });
            }
        }
        None
    }

    // Whether the site has an entry left.
    fn has_left(&self, site: Site) -> bool
        requires { site ≤ self.now.trace.sites }
        ensures left { result ≡ nat_lt (done_of self.now site) (length (site_entries (histories_of self.now) site)) }
        ensures some { 0 < site }
        ensures value { IsTraceValue self.now.trace }
    {
        self.done_by(site) < self.trace.entries(site)
    }
}
