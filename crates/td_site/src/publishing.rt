// How the text of a site is shown.
ghost use Rattle.std.specs.Prelude.{◌≡◌, ◌≤◌, true, false, length, OnOk, OnErr};
ghost use Rattle.std.specs.Option.{option_to_list};
ghost use Rattle.td_view.specs.Values.{told_of, after_publish};
ghost use Rattle.td_view.specs.Owing.{StillOwes};
ghost use Rattle.td_site.specs.Shows.{UptoAtLeast, texts_to};
ghost use Rattle.td_site.specs.Later.{LaterSite};

use crate::site::Site;
use std::sync::Wait;
use td_base::Memory;
use td_doc::Doc;
use td_op::Change;
use td_view::{Told, Writer};

impl<D: Doc> Site<D> {
    /// Publishes the text after the last step, where it is not shown yet. After `Memory` readers see nothing of it, and
    /// it is still to be shown. It may wait for readers.
    pub fn show<R: Wait>(&mut self, rt: &R) -> Result<(), Memory>
        ensures replica { self.new.replica ≡ self.old.replica }
        ensures late { OnOk result (self.new.late ≡ false) }
        ensures texts { OnOk result (self.new.writer.publishes
            ≡ texts_to self.old.replica (length self.old.replica.entries)) }
        ensures err { OnErr result ((self.old.late ≡ true) × (self.new.late ≡ true)
            × (told_of self.new.writer ≡ told_of self.old.writer)
            × (self.new.writer.shown ≡ self.old.writer.shown)) }
        ensures later { LaterSite self.old self.new }
    {
        if !self.late {
            return Ok(());
        }
        let upto = self.replica.entries();
        let change = self.replica.last_change();
        publish_change(rt, &mut self.writer, upto, change)?;
        self.late = false;
        Ok(())
    }

    /// All that was shown so far, which ends with the text after the last step. It takes no memory.
    pub fn told(&self) -> Told
        requires { self.now.late ≡ false }
        ensures told { result ≡ told_of self.now.writer }
        ensures texts { result.list ≡ texts_to self.now.replica (length self.now.replica.entries) }
        ensures upto { UptoAtLeast result.list (length self.now.replica.entries) }
    {
        self.writer.told()
    }
}

// Publishes the text with this change, if there is one.
fn publish_change<R: Wait>(
    rt: &R,
    writer: &mut Writer,
    upto: u64,
    change: Option<Change>,
) -> Result<(), Memory>
    requires rises { writer.old.shown.upto ≤ upto }
    requires owed { StillOwes writer.old upto (option_to_list change) }
    ensures ok { OnOk result (writer.new ≡ after_publish writer.old upto (option_to_list change)) }
    ensures err { OnErr result ((told_of writer.new ≡ told_of writer.old) × (writer.new.shown ≡ writer.old.shown)) }
    ensures owes { OnErr result (StillOwes writer.new upto (option_to_list change)) }
{
    match change {
        Some(change) => match writer.publish(rt, upto, &[change]) {
            Ok(_) => Ok(()),
            Err(fault) => Err(fault),
        },
        None => match writer.publish(rt, upto, &[]) {
            Ok(_) => Ok(()),
            Err(fault) => Err(fault),
        },
    }
}
