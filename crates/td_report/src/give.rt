ghost use Rattle.std.specs.Prelude.{◌≡◌, ◌++◌, IfOk, OnOk};
ghost use Rattle.td_report.specs.Given.{give_line, given_part, settle_line, taken_part};

use crate::parts::{begin, push_spaced};
use std::alloc::Global;
use td_base::{Bytes, Memory, Site};
use td_op::Reply;
use td_replica::Given;

/// `give R M` and what became of the message: `none`, `stray`, `later`, `repeat`, or `new K` where so many waiting
/// operations were taken after it.
pub fn give_line(alloc: Global, site: Site, number: u64, given: Given) -> Result<Bytes, Memory>
    ensures { IfOk result (λ line. line ≡ give_line site number given) }
{
    let mut line = begin(alloc, b"give", site)?;
    push_spaced(&mut line, number)?;
    push_given(&mut line, &given)?;
    line.push(b"\n")?;
    Ok(line)
}

fn push_given(line: &mut Bytes, given: &Given) -> Result<(), Memory>
    ensures { OnOk result (line.new ≡ line.old ++ given_part given.now) }
{
    match given {
        Given::NoSuch => line.push(b" none"),
        Given::Stray => line.push(b" stray"),
        Given::Took { reply, next } => push_taken(line, reply, *next),
    }
}

// How the site took the message, and how many waiting operations after it.
fn push_taken(line: &mut Bytes, reply: &Reply, next: u32) -> Result<(), Memory>
    ensures { OnOk result (line.new ≡ line.old ++ taken_part reply.now next) }
{
    match reply {
        Reply::New => {
            line.push(b" new")?;
            push_spaced(line, u64::from(next))
        }
        Reply::Later => line.push(b" later"),
        Reply::Repeat => line.push(b" repeat"),
        _ => Ok(()),
    }
}

/// `settle K`: so many messages were given.
pub fn settle_line(alloc: Global, given: u64) -> Result<Bytes, Memory>
    ensures { IfOk result (λ line. line ≡ settle_line given) }
{
    let mut line = Bytes::new(alloc);
    line.push(b"settle")?;
    push_spaced(&mut line, given)?;
    line.push(b"\n")?;
    Ok(line)
}
