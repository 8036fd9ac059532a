// How a request is done.
ghost use Rattle.std.specs.Prelude.{◌≡◌, ◌≢◌, false, None, OnOk, OnErr};
ghost use Rattle.td_site.specs.Later.{LaterSite};
ghost use Rattle.td_line.specs.Calls.{IsAskDone};
ghost use Rattle.td_line.specs.Lines.{Served};

use crate::answer::Answer;
use crate::ask::Ask;
use crate::line::Line;
use td_base::Memory;
use td_doc::Doc;
use td_op::Input;
use td_site::Site;

impl Line {
    // Does the request that was taken and is not done, if there is one. It is not shown yet.
    pub(crate) fn do_ask<D: Doc>(&mut self, site: &mut Site<D>) -> Result<(), Memory>
        requires rests { (site.old.late ≡ false) × (self.old.owed ≡ false) }
        ensures served { Served site.old self.old site.new self.new }
        ensures asks { self.new.asks ≡ self.old.asks }
        ensures answers { self.new.answers ≡ self.old.answers }
        ensures done { OnOk result (self.new.ask ≡ None) }
        ensures err { OnErr result (self.new.ask ≢ None) }
    {
        let Some(ask) = self.ask else {
            return Ok(());
        };
        do_request(site, &mut self.given, ask)?;
        self.ask = None;
        self.owed = true;
        Ok(())
    }
}

// Does a request as one step of the replica, which is not shown yet, and adds its answer. Room for the answer is made
// first, so that a step that is done has one.
pub(crate) fn do_request<D: Doc>(
    site: &mut Site<D>,
    given: &mut Vec<Answer>,
    ask: Ask,
) -> Result<(), Memory>
    requires { site.old.late ≡ false }
    ensures later { LaterSite site.old site.new }
    ensures done { OnOk result
        (IsAskDone site.old.replica.entries given.old.items ask site.new.replica.entries given.new.items) }
    ensures err { OnErr result ((site.new ≡ site.old) × (given.new.items ≡ given.old.items)) }
{
    given.reserve(1)?;
    let input = Input::Local(ask.request);
    let reply = site.step(&input)?;
    given.push_reserved(Answer {
        call: ask.call,
        entry: site.replica().entries(),
        reply,
    });
    Ok(())
}
