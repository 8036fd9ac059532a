ghost use Rattle.std.specs.Prelude.{◌≡◌, ℕ, IfNone, IfSome};
ghost use Rattle.td_disk.specs.Moments.{IsSynced};
ghost use Rattle.td_shell.specs.Running.{AreWordsOf, IsMember, IsShellRun, status_of_refused};

use crate::opening::begin_or_open;
use crate::status::Status;
use crate::talking::talk;
use std::alloc::Global;
use std::sync::Wait;
use td_base::{MAX_SITE, Site};
use td_disk::Disk;
use td_doc::Doc;
use td_io::{Sink, Source};
use td_journal::OpenFault;
use td_script::number_of;

/// A site among so many.
#[derive(Clone, Copy, Debug, PartialEq, Eq)]
pub struct Member {
    pub site: Site,
    pub sites: u8,
}

/// The site among so many that these two words are, as decimal numbers without leading zeros.
pub fn member_of(site: &[u8], sites: &[u8]) -> Option<Member>
    ensures some { IfSome result (λ member. IsMember member.site member.sites
        × AreWordsOf site.now sites.now member.site member.sites) }
    ensures none { IfNone result ((r n : ℕ) → IsMember r n → ¬ AreWordsOf site.now sites.now r n) }
{
    let number = number_of(site)?;
    let count = number_of(sites)?;
    if number > count || count > u32::from(MAX_SITE) {
        return None;
    }
    Some(Member {
        site: Site::new(number as u8)?,
        sites: count as u8,
    })
}

/// Begins the journal of the site on the disk or goes on in it, and talks. The disk is given back.
pub fn run<D: Doc, K: Disk, S: Source, W: Sink, R: Wait>(
    rt: &R,
    alloc: Global,
    member: Member,
    disk: K,
    source: &mut S,
    sink: &mut W,
) -> (Status, K)
    requires member { IsMember member.site member.sites }
    requires synced { IsSynced K.Disk disk }
    ensures { IsShellRun D.Doc K.Disk S.Source W.Sink member.site member.sites disk result.1 source.old source.new
        sink.old sink.new result.0 }
{
    match begin_or_open::<D, K>(alloc, member.site, member.sites, disk) {
        Ok(mut kept) => {
            let status = talk(rt, alloc, &mut kept, source, sink);
            (status, kept.into_disk())
        }
        Err(refused) => (status_of_refused(refused.why), refused.disk),
    }
}

fn status_of_refused(why: OpenFault) -> Status
    ensures { result ≡ status_of_refused why }
{
    match why {
        OpenFault::Bad { at } => Status::Bad { at },
        OpenFault::Disk => Status::Disk,
        OpenFault::Memory => Status::Memory,
    }
}
