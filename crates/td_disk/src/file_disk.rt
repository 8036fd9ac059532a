ghost use Rattle.std.specs.Prelude.{◌≡◌, ◌-◌, ◌≤◌, ℕ, List, refl, Ok, length, take, drop, min, IfOk};
ghost use Rattle.std.proofs.Common.{inl};
ghost use Rattle.td_disk.specs.declared.disk.TheConstants.{MAX_DISK_LEN};
ghost use Rattle.td_disk.specs.Events.{Leaves, LeftSince, only_now, counts_now};
ghost use Rattle.td_disk.specs.Moments.{IsSynced};
ghost use Rattle.td_disk.specs.Record.{device_of};

use crate::disk::{Disk, MAX_DISK_LEN};
use crate::record::Record;
use std::fs::{File, OpenOptions};
use std::io::{self, ErrorKind, Read};
use std::os::unix::fs::{FileExt, OpenOptionsExt};
use std::path::Path;
use std::rt::Files;
use td_io::Failed;

/// A file of the system, which this process alone has open. What contracts say of it they say of its record: what it
/// held when it was opened, and each write and sync since then. That a file does as its record says is trusted.
#[derive(Drop)]
pub struct FileDisk {
    file: File,
    past: Record,
    // no sync failed
    sound: bool,
    faults: u64,
    // the last error
    error: Option<io::Error>,
}

impl FileDisk {
    /// Opens the file, or makes it, syncs it and its folder, and reads it whole. Where another process has it open as a
    /// disk, or it is too long for one, that is an error at once.
    pub fn open<R: Files<File = File> + AllocGlobal>(rt: &R, path: &str) -> io::Result<FileDisk>
        ensures synced { IfOk result (λ d. IsSynced ⟦<FileDisk as Disk>⟧ d) }
    {
        let mut file = OpenOptions::new()
            .read(true)
            .write(true)
            .create(true)
            .mode(0o600)
            .open(rt, path)?;
        file.try_lock()?;
        file.sync_all()?;
        sync_folder_of(rt, path)?;
        let mut bytes = Vec::new(rt.alloc());
        let most = MAX_DISK_LEN as u64 + 1;
        file.by_ref().take(most).read_to_end(&mut bytes)?;
        if bytes.len() > MAX_DISK_LEN {
            return Err(ErrorKind::FileTooLarge.into());
        }
        let Ok(past) = Record::new(rt.alloc(), bytes) else {
            return Err(ErrorKind::OutOfMemory.into());
        };
        Ok(FileDisk {
            file,
            past,
            sound: true,
            faults: 0,
            error: None,
        })
    }

    /// What it reads as.
    pub fn bytes(&self) -> &[u8]
        ensures { result.now ≡ (device_of self.now.past).reads }
    {
        self.past.bytes()
    }

    /// The error of the last call that failed, for a person to read; None where it found no memory.
    pub fn error(&self) -> Option<io::Error> {
        self.error
    }
}

impl Disk for FileDisk {
    ghost reads = { λ d. (device_of d.past).reads };

    ghost leaves = { λ d. Leaves (device_of d.past) };

    ghost clock = { λ d. length d.past.events };

    ghost left_since = { λ d. LeftSince d.past.first d.past.events };

    ghost faults = { λ d. d.faults };

    ghost is_sound = { λ d. d.sound };

    // nothing more is told of it
    ghost writes = { λ old at bytes ok new. Unit {0} };

    ghost syncs = { λ old ok new. Unit {0} };

    ghost may_stay = { λ d. inl refl };

    ghost counts_now = { λ d t c le now. counts_now d.past.first d.past.events t c now };

    ghost only_now = { λ d c left. only_now d.past.first d.past.events c left };

    /// Reads from the record, and never fails.
    fn read(&mut self, at: usize, buf: &mut [u8]) -> Result<usize, Failed>
        ensures count { result ≡ Ok (min (length buf.old) (length (device_of self.old.past).reads - at)) }
        ensures bytes { IfOk result (λ k. take k buf.new ≡ take k (drop at (device_of self.old.past).reads)) }
        ensures fits { (t : ℕ) (c : List ℕ) → LeftSince self.old.past.first self.old.past.events t c
            → length c ≤ MAX_DISK_LEN }
        ensures same { self.new ≡ self.old }
    {
        Ok(self.past.read(at, buf))
    }

    fn write(&mut self, at: usize, bytes: &[u8]) -> Result<(), Failed> {
        self.error = None;
        if self.past.write(at, bytes).is_ok() {
            match self.file.write_all_at(bytes, at as u64) {
                Ok(()) => return Ok(()),
                Err(error) => self.error = Some(error),
            }
        }
        self.faults = self.faults.saturating_add(1);
        Err(Failed)
    }

    /// After a sync that failed each later one fails too.
    fn sync(&mut self) -> Result<(), Failed> {
        if self.sound {
            self.error = None;
            match self.file.sync_data() {
                Ok(()) => {
                    if self.past.sync().is_ok() {
                        return Ok(());
                    }
                }
                Err(error) => self.error = Some(error),
            }
        }
        self.sound = false;
        self.faults = self.faults.saturating_add(1);
        Err(Failed)
    }
}

// So that the name of a file which was just made is kept too.
fn sync_folder_of<R: Files<File = File>>(rt: &R, path: &str) -> io::Result<()> {
    let folder = match Path::new(path).parent() {
        Some(folder) if !folder.as_str().is_empty() => folder,
        _ => Path::new("."),
    };
    File::open(rt, folder)?.sync_all()
}
