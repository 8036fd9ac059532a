// The commits of one site.
ghost use Rattle.std.specs.Prelude.{◌≡◌, ◌≤◌, ◌||◌, not, true, false, filter, length};
ghost use Rattle.std.specs.List.{list_all};
ghost use Rattle.std.specs.List.Sorted.{IsPartitionedBy, IsPartitionPoint};
ghost use Rattle.td_clock.specs.Vector.{vector_has};
ghost use Rattle.td_machine.specs.Log.{Committed as CommittedValue};
ghost use Rattle.td_machine.specs.Vote.{is_apart};
ghost use Rattle.td_vote.specs.Commits.{IsOfSite};

use crate::committed::{Committed, is_apart};
use td_base::Site;
use td_clock::Vector;
use td_doc::Doc;
use td_path::Slot;

/// A site, and its commits in the order of their numbers.
#[derive(Debug, Drop)]
pub struct SiteCommits {
    pub site: Site,
    pub commits: Vec<Committed>,
}

/// Whether each commit of the site that the vector does not have lies apart from the slot.
pub fn all_apart<D: Doc>(of_site: &SiteCommits, doc: &D, slot: &Slot, v: &Vector) -> bool
    requires { IsOfSite of_site.now.site of_site.now.commits.items }
    ensures { result ≡ list_all (λ (c : CommittedValue). vector_has v.now c.dot
        || is_apart (D.rows doc.now) slot.now c) of_site.now.commits.items }
{
    are_apart(unseen(of_site, v), doc, slot)
}

// Whether each of the commits lies apart from the slot.
fn are_apart<D: Doc>(commits: &[Committed], doc: &D, slot: &Slot) -> bool
    ensures { result ≡ list_all (is_apart (D.rows doc.now) slot.now) commits.now }
{
    commits.iter().all(|commit| is_apart(doc, commit, slot))
}

// The commits of the site that the vector does not have: those behind the last that it has.
fn unseen<'a>(of_site: &'a SiteCommits, v: &Vector) -> &'a [Committed]
    requires { IsOfSite of_site.now.site of_site.now.commits.items }
    ensures { result.now ≡ filter (λ (c : CommittedValue). not (vector_has v.now c.dot)) of_site.now.commits.items }
{
    let had = count_had(&of_site.commits, v);
    &of_site.commits[had..]
}

// How many commits of a site the vector has: they stand first. The last is looked at first: mostly it has all.
fn count_had(commits: &[Committed], v: &Vector) -> usize
    requires { IsPartitionedBy (λ (c : CommittedValue). vector_has v.now c.dot) commits.now }
    ensures few { result ≤ length commits.now }
    ensures had { IsPartitionPoint (λ (c : CommittedValue). vector_has v.now c.dot ≡ true)
        (λ (c : CommittedValue). vector_has v.now c.dot ≡ false) commits.now result }
{
    if let Some(last) = commits.last()
        && v.has(last.dot)
    {
        return commits.len();
    }
    commits.partition_point(|commit| v.has(commit.dot))
}
