// A packet that came.
ghost use Rattle.std.specs.Prelude.{◌≡◌, ℕ, List, false, IfErr, IfOk, OnOk, Some};
ghost use Rattle.td_journal.specs.Seen.{is_closed, replica_of};
ghost use Rattle.td_op.specs.declared.message.Message.{Message};
ghost use Rattle.td_wire.specs.Spelling.{SpellsIn};
ghost use Rattle.td_shell.specs.Answers.{received, take_line, taken_anew};
ghost use Rattle.td_shell.specs.Staging.{IsStaged};
ghost use Rattle.td_shell.specs.Taking.{catch_up, message_of, took_part};
ghost use Rattle.td_shell.specs.Wanting.{IsWanting};

use crate::halt::Halt;
use crate::sending::push_spaced;
use crate::staging::stage;
use std::alloc::Global;
use td_base::{Bytes, Memory, Site};
use td_disk::Disk;
use td_doc::Doc;
use td_journal::Kept;
use td_op::{Input, Message, Reply};
use td_wire::decode;

/// What `take` reads is the message that the packet spells, in either format.
pub fn packets_are_read()
    ensures spelled { (m : Message) (bytes : List ℕ) → SpellsIn m bytes → message_of bytes ≡ Some m }
    ensures only { (m : Message) (bytes : List ℕ) → message_of bytes ≡ Some m → SpellsIn m bytes }
{}

/// Takes a packet, and then what waits, as long as something is ready.
pub(crate) fn receive<D: Doc, K: Disk>(
    alloc: Global,
    kept: &mut Kept<D, K>,
    packet: &[u8],
) -> Result<Bytes, Halt>
    requires { is_closed kept.old ≡ false }
    ensures text { IfOk result (λ text. text ≡ (received (message_of packet.now) (replica_of kept.old)).text) }
    ensures ok { OnOk result (replica_of kept.new
        ≡ (received (message_of packet.now) (replica_of kept.old)).replica) }
    ensures staged { IsStaged kept.old kept.new }
    ensures wanting { IfErr result (IsWanting kept.new
        (received (message_of packet.now) (replica_of kept.old)).replica) }
{
    let site = kept.replica().site();
    let Some(message) = message_of(packet) else {
        return Ok(take_line(alloc, site, b" malformed")?);
    };
    if !message.is_for(site) {
        return Ok(take_line(alloc, site, b" stray")?);
    }
    if kept.replica().known(&message) {
        return Ok(take_line(alloc, site, b" repeat")?);
    }
    take(alloc, kept, message)
}

// The message that the packet spells.
fn message_of(packet: &[u8]) -> Option<Message>
    ensures { result ≡ message_of packet.now }
{
    match decode(packet) {
        Ok(message) => Some(message),
        Err(_) => None,
    }
}

// Takes a message that is for the site and did not come before.
fn take<D: Doc, K: Disk>(
    alloc: Global,
    kept: &mut Kept<D, K>,
    message: Message,
) -> Result<Bytes, Halt>
    requires { is_closed kept.old ≡ false }
    ensures text { IfOk result (λ text. text ≡ (taken_anew message (replica_of kept.old)).text) }
    ensures ok { OnOk result (replica_of kept.new ≡ (taken_anew message (replica_of kept.old)).replica) }
    ensures staged { IsStaged kept.old kept.new }
    ensures wanting { IfErr result (IsWanting kept.new
        (taken_anew message (replica_of kept.old)).replica) }
{
    let site = kept.replica().site();
    let reply = stage(kept, Input::Take(message))?;
    let next = catch_up(kept)?;
    Ok(took_line(alloc, site, &reply, next)?)
}

// Takes what waits, as long as something is ready; how often is answered.
fn catch_up<D: Doc, K: Disk>(kept: &mut Kept<D, K>) -> Result<u32, Halt>
    requires { is_closed kept.old ≡ false }
    ensures count { IfOk result (λ count. count ≡ (catch_up (replica_of kept.old)).count) }
    ensures ok { OnOk result (replica_of kept.new ≡ (catch_up (replica_of kept.old)).replica) }
    ensures staged { IsStaged kept.old kept.new }
    ensures wanting { IfErr result (IsWanting kept.new
        (catch_up (replica_of kept.old)).replica) }
{
    let waiting = kept.replica().waiting();
    for count in 0..waiting {
        if !kept.replica().ready() {
            return Ok(count);
        }
        stage(kept, Input::Next)?;
    }
    Ok(waiting)
}

// How the site took a message, and how many waiting operations after it.
fn took_line(alloc: Global, site: Site, reply: &Reply, next: u32) -> Result<Bytes, Memory>
    ensures { IfOk result (λ line. line ≡ take_line site (took_part reply.now next)) }
{
    let mut part = Bytes::new(alloc);
    match reply {
        Reply::New => {
            part.push(b" new")?;
            push_spaced(&mut part, u64::from(next))?;
        }
        Reply::Later => part.push(b" later")?,
        Reply::Unfit { .. } => part.push(b" unfit")?,
        _ => {}
    }
    take_line(alloc, site, part.as_slice())
}

fn take_line(alloc: Global, site: Site, part: &[u8]) -> Result<Bytes, Memory>
    ensures { IfOk result (λ line. line ≡ take_line site part.now) }
{
    let mut line = Bytes::new(alloc);
    line.push(b"take")?;
    push_spaced(&mut line, u64::from(site.number()))?;
    line.push(part)?;
    line.push(b"\n")?;
    Ok(line)
}
