ghost use Rattle.std.specs.Prelude.{◌≡◌, ◌≤◌, length, true, IfOk};
ghost use Rattle.td_disk.specs.declared.disk.TheConstants.{MAX_DISK_LEN};

use std::alloc::Global;
use std::test::Fail;
use td_base::{Atom, Site};
use td_disk::{Disk, MemDisk};
use td_doc::Rows;
use td_journal::{Format, Kept};
use td_op::{Input, Request};

pub(crate) fn site(number: u8) -> Result<Site, Fail>
    ensures { IfOk result (λ site. site ≤ number) }
{
    Ok(Site::new(number).ok_or("a site")?)
}

/// The text of one cluster at the index.
pub(crate) fn insert(index: u32, text: &str) -> Result<Input, Fail> {
    let atom = Atom::new(text.as_bytes()).ok().ok_or("an atom")?;
    Ok(Input::Local(Request::Insert { index, atom }))
}

/// A disk that reads as these bytes, all of them synced.
pub(crate) fn disk_of(alloc: Global, bytes: &[u8]) -> Result<MemDisk, Fail>
    requires { length bytes.now ≤ MAX_DISK_LEN }
    ensures { IfOk result (λ d. d.sound ≡ true) }
{
    let mut disk = MemDisk::new(alloc, &[])?;
    disk.write(0, bytes)?;
    disk.sync()?;
    Ok(disk.crash(0)?)
}

/// The journal of site 1 of 2, which has no inputs yet, on a disk of which these calls fail.
pub(crate) fn begun(
    alloc: Global,
    format: Format,
    fails: &[u64],
) -> Result<Kept<Rows, MemDisk>, Fail> {
    let disk = MemDisk::new(alloc, fails)?;
    let kept: Option<Kept<Rows, MemDisk>> = Kept::create(alloc, site(1)?, 2, format, disk).ok();
    Ok(kept.ok_or("a journal")?)
}
