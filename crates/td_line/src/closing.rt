// How a line ends.
ghost use Rattle.std.specs.Prelude.{◌≡◌, ◌+◌, ◌++◌, ℕ, List, None, false, IfOk, OnOk};
ghost use mathlib.Core.List.{IsPrefix};
ghost use Rattle.td_site.specs.Later.{LaterSite};
ghost use Rattle.td_line.specs.declared.ask.Ask.{Ask};
ghost use Rattle.td_line.specs.Calls.{AreRecorded, IsAskDone, answers_at, local_at, OnlyLocals};
ghost use Rattle.td_line.specs.Lines.{HasServed, Served};
ghost use Rattle.td_line.specs.Editors.{Belongs, polled};

use crate::answer::Answer;
use crate::ask::Ask;
use crate::doing::do_request;
use crate::editor::Editor;
use crate::line::Line;
use std::alloc::Global;
use std::sync::Wait;
use td_base::Memory;
use td_doc::Doc;
use td_link::{Left, settle};
use td_site::Site;
use td_view::Reader;

impl Line {
    /// Ends the line and its editor: what was asked and is not done is done and shown, and the answers of all calls,
    /// in order, are handed out, with the editor's reader. It may wait for readers. After `Memory` line and editor are
    /// gone.
    pub fn end<D: Doc, R: Wait>(
        self,
        rt: &R,
        alloc: Global,
        site: &mut Site<D>,
        editor: Editor,
    ) -> Result<(Vec<Answer>, Reader), Memory>
        requires belongs { Belongs self editor }
        requires served { HasServed site.old.replica.entries self }
        requires late { site.old.late ≡ false }
        ensures later { LaterSite site.old site.new }
        ensures only { OnlyLocals site.old.replica.entries site.new.replica.entries }
        ensures late { OnOk result (site.new.late ≡ false) }
        ensures recorded { IfOk result (λ left. AreRecorded site.new.replica.entries 0 editor.asks.sent left.0.items) }
        ensures given { IfOk result (λ left. IsPrefix self.given left.0.items) }
        ensures polled { IfOk result (λ left. IsPrefix (polled editor) left.0.items) }
        ensures counts { IfOk result (λ left. (k : ℕ) → answers_at k left.0.items + local_at site.old.replica.entries k
            ≡ answers_at k self.given + local_at site.new.replica.entries k) }
        ensures reader { IfOk result (λ left. left.1 ≡ editor.reader) }
    {
        let mut line = self;
        line.finish(rt, site)?;
        let Line {
            editor: _,
            asks,
            answers,
            ask: _,
            mut given,
            owed: _,
        } = line;
        let Editor {
            home: _,
            asks: submitted,
            answers: polled,
            reader,
            entry: _,
            made: _,
            calls: _,
            polled: _,
        } = editor;
        let left = settle(rt, alloc, submitted, asks)?;
        do_left(rt, site, &mut given, left)?;
        let _unpolled = settle(rt, alloc, answers, polled)?;
        Ok((given, reader))
    }

    // Does the request that was taken and is not done, if there is one, and shows it.
    fn finish<D: Doc, R: Wait>(&mut self, rt: &R, site: &mut Site<D>) -> Result<(), Memory>
        requires late { site.old.late ≡ false }
        ensures served { Served site.old self.old site.new self.new }
        ensures asks { self.new.asks ≡ self.old.asks }
        ensures answers { self.new.answers ≡ self.old.answers }
        ensures late { OnOk result (site.new.late ≡ false) }
        ensures done { OnOk result (self.new.ask ≡ None) }
    {
        if self.owed {
            return Ok(());
        }
        self.do_ask(site)?;
        site.show(rt)?;
        Ok(())
    }
}

// Does what is left of the requests, and shows it.
fn do_left<D: Doc, R: Wait>(
    rt: &R,
    site: &mut Site<D>,
    given: &mut Vec<Answer>,
    left: Left<Ask>,
) -> Result<(), Memory>
    requires late { site.old.late ≡ false }
    ensures later { LaterSite site.old site.new }
    ensures only { OnlyLocals site.old.replica.entries site.new.replica.entries }
    ensures late { OnOk result (site.new.late ≡ false) }
    ensures recorded { OnOk result ((asks : List Ask) → AreRecorded site.old.replica.entries 0 asks given.old.items
        → AreRecorded site.new.replica.entries 0 (asks ++ left) given.new.items) }
    ensures counts { OnOk result ((k : ℕ) → answers_at k given.new.items + local_at site.old.replica.entries k
        ≡ answers_at k given.old.items + local_at site.new.replica.entries k) }
    ensures given { OnOk result (IsPrefix given.old.items given.new.items) }
{
    let mut left = left;
    while let Some(ask) = left.take_first() {
        do_and_show(rt, site, given, ask)?;
    }
    Ok(())
}

// Does a request, and shows it.
fn do_and_show<D: Doc, R: Wait>(
    rt: &R,
    site: &mut Site<D>,
    given: &mut Vec<Answer>,
    ask: Ask,
) -> Result<(), Memory>
    requires late { site.old.late ≡ false }
    ensures later { LaterSite site.old site.new }
    ensures only { OnlyLocals site.old.replica.entries site.new.replica.entries }
    ensures late { OnOk result (site.new.late ≡ false) }
    ensures done { OnOk result
        (IsAskDone site.old.replica.entries given.old.items ask site.new.replica.entries given.new.items) }
{
    do_request(site, given, ask)?;
    site.show(rt)?;
    Ok(())
}
