ghost use Rattle.std.specs.Prelude.{◌≡◌, ◌+◌, ◌-◌, ◌<◌, ◌≤◌, ◌↔◌, ◌⊎◌, [], ℕ, List, true, false, refl, Ok, length};
ghost use Rattle.std.specs.Prelude.{take, drop, min, IsTrue, OnOk, OnErr, IfOk};
ghost use Rattle.std.proofs.Common.{inl};
ghost use Rattle.td_io.specs.Count.{counted};
ghost use Rattle.td_disk.specs.declared.disk.TheConstants.{MAX_DISK_LEN};
ghost use Rattle.td_disk.specs.Device.{Torn, Follows};
ghost use Rattle.td_disk.specs.Events.{Leaves, LeftSince, only_now, counts_now};
ghost use Rattle.td_disk.specs.Moments.{IsSynced};
ghost use Rattle.td_disk.specs.Record.{device_of};
ghost use Rattle.td_disk.specs.Image.{image};
ghost use Rattle.td_disk.specs.MemDisk.{new_disk, IsTold, called, written, synced, unsound, failed, starved};
ghost use Rattle.td_disk.specs.MemDisk.{Writes, Syncs};

use crate::disk::Disk;
use crate::record::Record;
use std::alloc::Global;
use std::marker::Model;
use td_base::Memory;
use td_io::Failed;

/// A disk in memory, which keeps each of its writes and syncs. A write or a sync fails where it is told to, and else
/// only for want of memory. Contracts see its record and its counts.
#[derive(Debug, Drop)]
pub struct MemDisk {
    past: Record,
    fails: Vec<u64>,
    // how many writes and syncs were made
    made: u64,
    // how many of them from now on the next is that fails, 0 for none
    fuse: u32,
    // how many failed, and how many of these found no memory
    faults: u64,
    starved: u64,
    // no sync failed
    sound: bool,
}

impl Model for MemDisk {
    ghost use Rattle.td_disk.specs.MemDisk.{MemDiskValue};

    ghost Value = { MemDiskValue };

    ghost view = { λ d. record {
      past = d.past;
      fails = d.fails.items;
      made = d.made;
      fuse = d.fuse;
      faults = d.faults;
      starved = d.starved;
      sound = d.sound;
    } };
}

impl MemDisk {
    /// An empty disk. `fails` names the writes and syncs, counted together from 1, that fail.
    pub fn new(alloc: Global, fails: &[u64]) -> Result<MemDisk, Memory>
        ensures is { IfOk result (λ d. d ≡ new_disk [] fails.now) }
        ensures synced { IfOk result (λ d. IsSynced ⟦<MemDisk as Disk>⟧ d) }
    {
        MemDisk::of(alloc, Vec::new(alloc), fails)
    }

    fn of(alloc: Global, bytes: Vec<u8>, fails: &[u64]) -> Result<MemDisk, Memory>
        requires { length bytes.items ≤ MAX_DISK_LEN }
        ensures is { IfOk result (λ d. d ≡ new_disk bytes.items fails.now) }
        ensures synced { IfOk result (λ d. IsSynced ⟦<MemDisk as Disk>⟧ d) }
    {
        Ok(MemDisk {
            past: Record::new(alloc, bytes)?,
            fails: Vec::from_slice(alloc, fails)?,
            made: 0,
            fuse: 0,
            faults: 0,
            starved: 0,
            sound: true,
        })
    }

    /// The `k`-th write or sync from now on fails, once, beside those that fail anyway. A later word of this kind takes
    /// the place of one whose turn has not come. It takes no memory.
    pub fn fail_next(&mut self, k: u32)
        requires { 0 < k }
        ensures { self.new ≡ record self.old { fuse = k } }
    {
        self.fuse = k;
    }

    /// The disk that a crash leaves; no call of it is to fail. What is pending is as it was at the last sync that was
    /// believed (choice 0), as written, also by writes that failed (1), or each byte of it is the choice modulo 256.
    pub fn crash(self, choice: u64) -> Result<MemDisk, Memory>
        ensures image { IfOk result (λ d. d ≡ new_disk (image choice (device_of self.past)) []) }
        ensures left { Leaves (device_of self.past) (image choice (device_of self.past)) }
        ensures synced { IfOk result (λ d. IsSynced ⟦<MemDisk as Disk>⟧ d) }
    {
        let MemDisk { past, fails, .. } = self;
        MemDisk::of(*fails.allocator(), past.image(choice)?, &[])
    }

    /// What it reads as.
    pub fn bytes(&self) -> &[u8]
        ensures { result.now ≡ (device_of self.now.past).reads }
    {
        self.past.bytes()
    }

    /// How many of the calls that failed found no memory.
    pub fn starved(&self) -> u64
        ensures { result ≡ self.now.starved }
    {
        self.starved
    }

    // Counts a write or a sync, and says whether it is to fail.
    fn call(&mut self) -> bool
        ensures told { IsTrue result ↔ IsTold self.old }
        ensures counted { self.new ≡ called self.old }
    {
        let last = self.fuse == 1;
        self.made = self.made.saturating_add(1);
        self.fuse = self.fuse.saturating_sub(1);
        last || self.fails.contains(&self.made)
    }

    // The answer to a write or a sync that was told to fail or not, and was noted or found no memory.
    fn answer(&mut self, told: bool, noted: bool) -> Result<(), Failed>
        ensures ok { OnOk result ((told ≡ false) × (noted ≡ true) × (self.new ≡ self.old)) }
        ensures err { OnErr result (((told ≡ true) × (noted ≡ true) × (self.new ≡ failed self.old))
            ⊎ ((noted ≡ false) × (self.new ≡ starved self.old))) }
        ensures past { self.new.past ≡ self.old.past }
        ensures count { self.old.faults ≤ self.new.faults }
    {
        if !noted {
            self.starved = self.starved.saturating_add(1);
        } else if !told {
            return Ok(());
        }
        self.faults = self.faults.saturating_add(1);
        Err(Failed)
    }
}

impl Disk for MemDisk {
    ghost reads = { λ d. (device_of d.past).reads };

    ghost leaves = { λ d. Leaves (device_of d.past) };

    ghost clock = { λ d. length d.past.events };

    ghost left_since = { λ d. LeftSince d.past.first d.past.events };

    ghost faults = { λ d. d.faults };

    ghost is_sound = { λ d. d.sound };

    ghost writes = { Writes };

    ghost syncs = { Syncs };

    ghost may_stay = { λ d. inl refl };

    ghost counts_now = { λ d t c le now. counts_now d.past.first d.past.events t c now };

    ghost only_now = { λ d c left. only_now d.past.first d.past.events c left };

    /// Never fails.
    fn read(&mut self, at: usize, buf: &mut [u8]) -> Result<usize, Failed>
        ensures count { result ≡ Ok (min (length buf.old) (length (device_of self.old.past).reads - at)) }
        ensures bytes { IfOk result (λ k. take k buf.new ≡ take k (drop at (device_of self.old.past).reads)) }
        ensures fits { (t : ℕ) (c : List ℕ) → LeftSince self.old.past.first self.old.past.events t c
            → length c ≤ MAX_DISK_LEN }
        ensures same { self.new ≡ self.old }
    {
        Ok(self.past.read(at, buf))
    }

    /// A write that was told to fail is done and noted all the same, where there is memory for that.
    fn write(&mut self, at: usize, bytes: &[u8]) -> Result<(), Failed>
        requires within { at ≤ length (device_of self.old.past).reads }
        requires room { at + length bytes.now ≤ MAX_DISK_LEN }
        ensures ok { OnOk result ((¬ IsTold self.old) × (self.new ≡ written at bytes.now (called self.old))) }
        ensures err { OnErr result ((IsTold self.old × (self.new ≡ failed (written at bytes.now (called self.old))))
            ⊎ (self.new ≡ starved (called self.old))) }
        ensures crash { Follows (Torn at (length bytes.now)) (Leaves (device_of self.old.past))
            (Leaves (device_of self.new.past)) }
        ensures count { self.old.faults ≤ self.new.faults }
    {
        let told = self.call();
        let noted = self.past.write(at, bytes).is_ok();
        self.answer(told, noted)
    }

    /// Of a disk that is not sound nothing is kept by a sync, which may answer Ok all the same.
    fn sync(&mut self) -> Result<(), Failed>
        ensures ok { OnOk result ((¬ IsTold self.old) × (self.new ≡ synced (called self.old))) }
        ensures err { OnErr result ((IsTold self.old × (self.new ≡ unsound (failed (called self.old))))
            ⊎ (self.new ≡ unsound (starved (called self.old)))) }
        ensures count { self.old.faults ≤ self.new.faults }
    {
        let told = self.call();
        let noted = told || !self.sound || self.past.sync().is_ok();
        let answer = self.answer(told, noted);
        self.sound = self.sound && answer.is_ok();
        answer
    }
}
