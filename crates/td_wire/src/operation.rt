ghost use Rattle.std.specs.Prelude.{◌≡◌, ◌≤◌, length};
ghost use Rattle.td_base.specs.declared.site.TheConstants.{MAX_SITE};
ghost use Rattle.td_wire.specs.declared.format.TheConstants.{ABORT, INSERT};
ghost use Rattle.td_wire.specs.Reading.{Gives, Passes, operation_at, deps_at, dep_least, dep_most, body_at};

use crate::format::{COMMIT, DELETE, Format, INSERT, PROPOSE};
use crate::reader::{Fault, MAX_NUMBER, Reader};
use td_base::{Dot, Site};
use td_clock::Vector;
use td_op::{Body, Message, Op};

impl Reader<'_> {
    // Made only where all of it is read, so that nothing large is handed on before.
    #[tactic(auto, unfolding(crate::specs::Reading::op_at))]
    pub(crate) fn op(&mut self, format: Format, kind: u8) -> Result<Message, Fault>
        requires least { INSERT ≤ kind }
        requires most { kind ≤ ABORT }
        ensures { Gives result self.new.rest.now (operation_at format kind self.old.rest.now) }
    {
        let max_site = format.max_site();
        let own = self.dot(max_site)?;
        let n = self.byte(own.site.number(), max_site)?;
        let mut deps = Vector::new(n);
        self.deps(own, n, &mut deps)?;
        let body = self.body(format, kind, n)?;
        Ok(Message::Op(Op::of(own, &deps, &body)))
    }

    // The numbers of n sites, of which that of the dot's site is the one before the dot's, into a vector of so many.
    fn deps(&mut self, own: Dot, n: u8, deps: &mut Vector) -> Result<(), Fault>
        requires few { n ≤ MAX_SITE }
        requires size { length deps.old ≡ n }
        ensures { Passes result self.new.rest.now (deps_at own 1 n self.old.rest.now) deps.new }
    {
        // another reader, which stays in registers
        let mut numbers = Reader { rest: self.rest };
        for i in 0..n {
            let (least, most) = dep_range(own, i + 1);
            let known = numbers.number(least, most)?;
            deps.set(Site::at(i), u32::from(known));
        }
        self.rest = numbers.rest;
        Ok(())
    }

    #[tactic(auto, unfolding(crate::specs::Reading::body_at, crate::specs::Reading::insert_at))]
    fn body(&mut self, format: Format, kind: u8, n: u8) -> Result<Body, Fault>
        requires { n ≤ MAX_SITE }
        ensures { Gives result self.new.rest.now (body_at format kind n self.old.rest.now) }
    {
        match kind {
            INSERT => {
                let slot = self.slot(format, n)?;
                let run = self.run(format)?;
                Ok(Body::Insert { slot, run })
            }
            DELETE => {
                let target = self.identity(format, n)?;
                Ok(Body::Delete { target })
            }
            PROPOSE => {
                let slot = self.slot(format, n)?;
                Ok(Body::Propose { slot })
            }
            COMMIT => {
                let proposal = self.dot(n)?;
                Ok(Body::Commit { proposal })
            }
            _ => {
                let proposal = self.dot(n)?;
                Ok(Body::Abort { proposal })
            }
        }
    }
}

// The least and the greatest number of a site in the dependencies of the operation with this dot.
fn dep_range(own: Dot, site: u8) -> (u16, u16)
    ensures least { result.0 ≡ dep_least own site }
    ensures most { result.1 ≡ dep_most own site }
{
    if own.site.number() == site {
        let before = (own.seq - 1) as u16;
        (before, before)
    } else {
        (0, MAX_NUMBER)
    }
}
