ghost use Rattle.std.specs.Prelude.{◌≡◌, ◌+◌, ◌≤◌, length, drop, Some, None, IfOk, IfSome, IfNone, OnErr, OnOk};
ghost use Rattle.td_view.specs.Publishes.{EndsWith, AreLegal};
ghost use Rattle.td_view.specs.Values.{told_of, after_publish};
ghost use Rattle.td_view.specs.Deeds.{Publishes, publish_of, published};
ghost use Rattle.td_view.specs.Owing.{Owes, StillOwes};
ghost use Rattle.td_view.specs.Parts.{IsWriterParts};

use crate::history::{Head, Publishes};
use crate::publishing::{Publishing, enter, give, show};
use crate::table::Press;
use crate::told::Told;
use core::mem::replace_with;
use std::alloc::AllocError;
use std::marker::Model;
use std::sync::Wait;
use td_base::Memory;
use td_op::Change;

/// Who publishes. It may go to another thread. It cannot be dropped: end it by `end` or `quit`. Contracts see which
/// views it writes, all that was published, the text shown, and what it owes after want of memory.
pub struct Writer {
    pub(crate) press: Press,
    pub(crate) head: Head,
    // all that was published, and how many these are
    pub(crate) past: Publishes,
    pub(crate) count: u64,
    // all that was published and then what is owed
    pub(crate) owed: Option<Publishes>,
    // so many deeds of it are with the press
    pub(crate) given: usize,
}

impl Model for Writer {
    ghost use Rattle.std.specs.Prelude.{drop};
    ghost use Rattle.td_view.specs.Deeds.{publish_of};
    ghost use Rattle.td_view.specs.Values.{WriterValue};
    ghost use Rattle.td_view.specs.Parts.{IsWriterParts};

    ghost Value = { WriterValue };

    ghost view = { λ w. record {
      views = w.past.book;
      publishes = w.past.log;
      shown = publish_of w.press.desk.shown.value;
      owed = w.owed;
      pending = drop w.press.behind w.press.log.items;
      given = w.given;
    } };

    ghost invariant = { λ w.
        IsWriterParts w.press.desk.shown.value (drop w.press.behind w.press.log.items) w.head w.past w.count w.owed };
}

// No writer publishes more often.
pub(crate) const MOST: u64 = 1 << 62;

impl Writer {
    pub(crate) fn new(
        press: Press,
        head: Head,
        past: Publishes,
        count: u64,
        owed: Option<Publishes>,
        given: usize,
    ) -> Writer
        requires { IsWriterParts press.desk.shown.value (drop press.behind press.log.items) head past count owed }
        ensures { result ≡ record {
          views = past.book;
          publishes = past.log;
          shown = publish_of press.desk.shown.value;
          owed = owed;
          pending = drop press.behind press.log.items;
          given = given;
        } }
    {
        Writer {
            press,
            head,
            past,
            count,
            owed,
            given,
        }
    }

    /// Publishes the text shown with these changes. After `Memory` readers see nothing of it, and the writer owes it:
    /// the next publish must be the same. It may wait for readers.
    pub fn publish<R: Wait>(
        &mut self,
        rt: &R,
        upto: u64,
        changes: &[Change],
    ) -> Result<Told, Memory>
        requires rises { self.old.shown.upto ≤ upto }
        requires owed { StillOwes self.old upto changes.now }
        ensures ok { OnOk result (self.new ≡ after_publish self.old upto changes.now) }
        ensures told { IfOk result (λ told. told ≡ told_of self.new) }
        ensures err { OnErr result ((told_of self.new ≡ told_of self.old) × (self.new.shown ≡ self.old.shown)) }
        ensures owes { OnErr result (StillOwes self.new upto changes.now) }
    {
        replace_with(self, (rt, upto, changes), |writer, (rt, upto, changes)| {
            writer.published(rt, upto, changes)
        })
    }

    // The same, of a writer that is handed over.
    fn published<R: Wait>(
        self,
        rt: &R,
        upto: u64,
        changes: &[Change],
    ) -> (Writer, Result<Told, Memory>)
        requires rises { self.shown.upto ≤ upto }
        requires owed { StillOwes self upto changes.now }
        ensures ok { OnOk result.1 (result.0 ≡ after_publish self upto changes.now) }
        ensures told { IfOk result.1 (λ told. told ≡ told_of result.0) }
        ensures err { OnErr result.1 ((told_of result.0 ≡ told_of self) × (result.0.shown ≡ self.shown)) }
        ensures owes { OnErr result.1 (StillOwes result.0 upto changes.now) }
    {
        let Writer {
            mut press,
            head,
            past,
            count,
            owed,
            given,
        } = self;
        if count >= MOST {
            return (
                Writer::new(press, head, past, count, owed, given),
                Err(Memory),
            );
        }
        let publishing = Publishing {
            count: count + 1,
            upto,
            changes,
            last: 0,
        };
        let Some((next, mut given)) = begin(&press, &head, &past, owed, given, &publishing) else {
            return (
                Writer::new(press, head, past, count, None, given),
                Err(Memory),
            );
        };
        if !give(&mut press, &mut given, &publishing, &next) {
            return (
                Writer::new(press, head, past, count, Some(next), given),
                Err(Memory),
            );
        }
        let (press, shown) = show(rt, press, &publishing, &next);
        if shown.is_err() {
            return (
                Writer::new(press, head, past, count, Some(next), given),
                Err(Memory),
            );
        }
        let told = Told::new(next.again(), count + 1);
        (Writer::new(press, head, next, count + 1, None, 0), Ok(told))
    }

    /// All that was published so far. It takes no memory.
    pub fn told(&self) -> Told
        ensures told { result ≡ told_of self.now }
        ensures last { EndsWith result.list self.now.shown }
        ensures legal { AreLegal result.list }
    {
        Told::new(self.past.again(), self.count)
    }

    /// Gives back what the readers look at, also where a publish is owed. It may wait for readers, and takes no memory.
    pub fn quit<R: Wait>(self, rt: &R) {
        let Writer {
            press,
            head: _,
            past: _,
            count: _,
            owed: _,
            given: _,
        } = self;
        press.take(rt);
    }
}

// The history with what is owed, and how much of it is given: what was owed already, or else this publish, entered now.
fn begin(
    press: &Press,
    head: &Head,
    past: &Publishes,
    owed: Option<Publishes>,
    given: usize,
    publishing: &Publishing<'_>,
) -> Option<(Publishes, usize)>
    requires parts { IsWriterParts press.now.desk.shown.value (drop press.now.behind press.now.log.items)
        head.now past.now (length past.now.log) owed }
    requires count { publishing.now.count ≡ length past.now.log + 1 }
    requires rises { press.now.desk.shown.value.upto ≤ publishing.now.upto }
    requires owed { (o : Publishes) → owed ≡ Some o → Owes past.now.log o
        (published publishing.now press.now.desk.shown.value.atoms)
        (drop press.now.behind press.now.log.items) given publishing.now.changes.now }
    ensures none { IfNone result (owed ≡ None) }
    ensures book { IfSome result (λ r. r.0.book ≡ past.now.book) }
    ensures legal { IfSome result (λ r. AreLegal r.0.log) }
    ensures owes { IfSome result (λ r. Owes past.now.log r.0
        (published publishing.now press.now.desk.shown.value.atoms)
        (drop press.now.behind press.now.log.items) r.1 publishing.now.changes.now) }
{
    match owed {
        Some(next) => Some((next, given)),
        None => {
            let next = enter(head, past, press.published(), publishing)?;
            Some((next, 0))
        }
    }
}
