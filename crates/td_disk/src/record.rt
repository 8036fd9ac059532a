ghost use Rattle.std.specs.Prelude.{◌≡◌, ◌+◌, ◌-◌, ◌≤◌, ℕ, List, length, take, drop, min, OnOk, OnErr, IfOk};
ghost use Rattle.td_disk.specs.declared.disk.TheConstants.{MAX_DISK_LEN};
ghost use Rattle.td_disk.specs.Device.{overwritten};
ghost use Rattle.td_disk.specs.Events.{Wrote, Synced, Leaves, LeftSince, replay};
ghost use Rattle.td_disk.specs.Record.{begun, noted, device_of, events_of, writes_of};
ghost use Rattle.td_disk.specs.Image.{filled, image};

use crate::event::Call;
use std::alloc::{AllocError, Global};
use std::marker::Model;

/// What a disk held at first, and each of its writes and syncs since then.
#[derive(Debug, Drop)]
pub(crate) struct Record {
    first: Vec<u8>,
    // what it reads as
    bytes: Vec<u8>,
    calls: Vec<Call>,
    // how many of the calls came up to the last sync
    synced: usize,
}

impl Model for Record {
    ghost use Rattle.std.specs.Prelude.{◌≡◌};
    ghost use Rattle.td_disk.specs.Events.{AreWithin, replay};
    ghost use Rattle.td_disk.specs.Record.{RecordValue, IsSyncedAt, events_of};

    ghost Value = { RecordValue };

    ghost view = { λ r. record { first = r.first.items; events = events_of r.calls.items } };

    ghost invariant = { λ r. (r.bytes.items ≡ (replay r.first.items (events_of r.calls.items)).reads)
        × AreWithin r.first.items (events_of r.calls.items)
        × IsSyncedAt r.synced r.first.items r.calls.items };
}

impl Record {
    /// The disk holds these bytes, all of them synced.
    pub(crate) fn new(alloc: Global, bytes: Vec<u8>) -> Result<Record, AllocError>
        requires { length bytes.items ≤ MAX_DISK_LEN }
        ensures { IfOk result (λ r. r ≡ begun bytes.items) }
    {
        Ok(Record {
            first: Vec::from_slice(alloc, &bytes)?,
            bytes,
            calls: Vec::new(alloc),
            synced: 0,
        })
    }

    /// What the disk reads as.
    pub(crate) fn bytes(&self) -> &[u8]
        ensures { result.now ≡ (device_of self.now).reads }
    {
        &self.bytes
    }

    /// Reads from `at` on, and says how many bytes came.
    #[tactic(auto, using(crate::proofs::Images::all_fit))]
    pub(crate) fn read(&self, at: usize, buf: &mut [u8]) -> usize
        ensures count { result ≡ min (length buf.old) (length (device_of self.now).reads - at) }
        ensures bytes { take result buf.new ≡ take result (drop at (device_of self.now).reads) }
        ensures fits { (t : ℕ) (c : List ℕ) → LeftSince self.now.first self.now.events t c
            → length c ≤ MAX_DISK_LEN }
    {
        let at = at.min(self.bytes.len());
        let count = (self.bytes.len() - at).min(buf.len());
        buf[..count].copy_from_slice(&self.bytes[at..at + count]);
        count
    }

    /// Notes a write and does it; where memory runs out, neither.
    pub(crate) fn write(&mut self, at: usize, bytes: &[u8]) -> Result<(), AllocError>
        requires within { at ≤ length (device_of self.old).reads }
        requires room { at + length bytes.now ≤ MAX_DISK_LEN }
        ensures noted { OnOk result (self.new ≡ noted (Wrote at bytes.now) self.old) }
        ensures err { OnErr result (self.new ≡ self.old) }
    {
        let copy = Vec::from_slice(*self.bytes.allocator(), bytes)?;
        self.calls.reserve(1)?;
        overwrite(&mut self.bytes, at, bytes)?;
        // room for it was made
        self.calls.push(Call::Write { at, bytes: copy }).unwrap();
        Ok(())
    }

    /// Notes a sync, unless memory runs out.
    pub(crate) fn sync(&mut self) -> Result<(), AllocError>
        ensures noted { OnOk result (self.new ≡ noted Synced self.old) }
        ensures err { OnErr result (self.new ≡ self.old) }
    {
        self.calls.push(Call::Sync)?;
        self.synced = self.calls.len();
        Ok(())
    }

    /// What a crash leaves by this choice.
    #[tactic(auto, using(crate::proofs::Images::image_is_left, crate::proofs::Images::image_fits))]
    pub(crate) fn image(self, choice: u64) -> Result<Vec<u8>, AllocError>
        ensures is { IfOk result (λ file. file.items ≡ image choice (device_of self)) }
        ensures left { Leaves (device_of self) (image choice (device_of self)) }
        ensures fits { length (image choice (device_of self)) ≤ MAX_DISK_LEN }
    {
        let Record {
            first,
            bytes,
            calls,
            synced,
        } = self;
        if choice == 1 {
            return Ok(bytes);
        }
        let (kept, pending) = calls.split_at(synced);
        let mut file = first;
        write_all(&mut file, kept)?;
        if choice > 1 {
            fill_all(&mut file, pending, (choice % 256) as u8)?;
        }
        Ok(file)
    }
}

// Does the writes.
fn write_all(file: &mut Vec<u8>, calls: &[Call]) -> Result<(), AllocError>
    ensures { OnOk result (file.new.items ≡ (replay file.old.items (events_of calls.now)).reads) }
{
    for call in calls {
        if let Call::Write { at, bytes } = call {
            overwrite(file, *at, bytes)?;
        }
    }
    Ok(())
}

// Does the writes with another byte in the place of each that they have.
fn fill_all(file: &mut Vec<u8>, calls: &[Call], byte: u8) -> Result<(), AllocError>
    ensures { OnOk result (file.new.items ≡ filled byte (writes_of (events_of calls.now)) file.old.items) }
{
    for call in calls {
        if let Call::Write { at, bytes } = call {
            let mut other = Vec::new(*file.allocator());
            other.resize(bytes.len(), byte)?;
            overwrite(file, *at, &other)?;
        }
    }
    Ok(())
}

// Writes in place; at the end, where the place is past it.
fn overwrite(file: &mut Vec<u8>, at: usize, bytes: &[u8]) -> Result<(), AllocError>
    ensures written { OnOk result (file.new.items ≡ overwritten file.old.items at bytes.now) }
    ensures err { OnErr result (file.new.items ≡ file.old.items) }
{
    let at = at.min(file.len());
    let over = bytes.len().min(file.len() - at);
    let (front, behind) = bytes.split_at(over);
    file.reserve(behind.len())?;
    file[at..at + over].copy_from_slice(front);
    // room for them was made
    file.extend_from_slice(behind).unwrap();
    Ok(())
}
