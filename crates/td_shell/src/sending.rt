// The lines of messages that were sent, and of faults.
ghost use Rattle.std.specs.Prelude.{◌≡◌, ◌<◌, ◌++◌, IfOk, OnOk};
ghost use Rattle.td_script.specs.Hex.{hex_digit, hex_of};
ghost use Rattle.td_script.specs.Spelling.{spaced};
ghost use Rattle.td_shell.specs.Answers.{told_behind};
ghost use Rattle.td_shell.specs.Sending.{address_part, events_behind, fault_line, send_line, sent_behind};

use itoa::Buffer;
use std::alloc::Global;
use td_base::{Bytes, Memory};
use td_doc::Doc;
use td_op::Message;
use td_replica::Replica;
use td_report::event_line;
use td_script::Kind;
use td_wire::encode;

/// A number behind a space.
pub(crate) fn push_spaced(text: &mut Bytes, number: u64) -> Result<(), Memory>
    ensures { OnOk result (text.new ≡ text.old ++ spaced number) }
{
    text.push(b" ")?;
    text.push(Buffer::new().format(number).as_bytes())
}

/// The number of a line, and the first thing wrong with it.
pub(crate) fn fault_line(alloc: Global, number: u64, kind: Kind) -> Result<Bytes, Memory>
    ensures { IfOk result (λ line. line ≡ fault_line number kind) }
{
    let mut line = Bytes::new(alloc);
    line.push(b"fault")?;
    push_spaced(&mut line, number)?;
    line.push(b" ")?;
    line.push(kind.name().as_bytes())?;
    line.push(b"\n")?;
    Ok(line)
}

/// Behind so many messages: the votes and decisions among those that were sent since, and then all of these.
pub(crate) fn push_told<D: Doc>(
    alloc: Global,
    text: &mut Bytes,
    replica: &Replica<D>,
    before: u64,
) -> Result<(), Memory>
    ensures { OnOk result (text.new ≡ text.old ++ told_behind before replica.now.machine) }
{
    push_events(alloc, text, replica, before)?;
    push_sent(text, replica, before)
}

fn push_events<D: Doc>(
    alloc: Global,
    text: &mut Bytes,
    replica: &Replica<D>,
    before: u64,
) -> Result<(), Memory>
    ensures { OnOk result (text.new ≡ text.old ++ events_behind before replica.now.machine.sent) }
{
    for number in before..replica.sent() {
        let message = replica.message(number + 1);
        let line = event_line(alloc, &message)?;
        text.push(line.as_slice())?;
    }
    Ok(())
}

/// Behind so many messages: those that were sent since.
pub(crate) fn push_sent<D: Doc>(
    text: &mut Bytes,
    replica: &Replica<D>,
    before: u64,
) -> Result<(), Memory>
    ensures { OnOk result (text.new ≡ text.old ++ sent_behind before replica.now.machine.sent) }
{
    for number in before..replica.sent() {
        let message = replica.message(number + 1);
        push_send(text, number + 1, &message)?;
    }
    Ok(())
}

// The number of a message, its packet in hex, and the one site that it is for.
fn push_send(text: &mut Bytes, number: u64, message: &Message) -> Result<(), Memory>
    ensures { OnOk result (text.new ≡ text.old ++ send_line number message.now) }
{
    text.push(b"send")?;
    push_spaced(text, number)?;
    text.push(b" ")?;
    push_hex(text, encode(message).bytes())?;
    push_address(text, message)?;
    text.push(b"\n")
}

fn push_address(text: &mut Bytes, message: &Message) -> Result<(), Memory>
    ensures { OnOk result (text.new ≡ text.old ++ address_part message.now) }
{
    match message {
        Message::Op(_) => Ok(()),
        Message::Vote(vote) => {
            text.push(b" to")?;
            push_spaced(text, u64::from(vote.proposal.site.number()))
        }
    }
}

fn push_hex(text: &mut Bytes, bytes: &[u8]) -> Result<(), Memory>
    ensures { OnOk result (text.new ≡ text.old ++ hex_of bytes.now) }
{
    for byte in bytes {
        text.push(&[hex_digit(byte / 16), hex_digit(byte % 16)])?;
    }
    Ok(())
}

fn hex_digit(value: u8) -> u8
    requires { value < 16 }
    ensures { result ≡ hex_digit value }
{
    if value < 10 {
        b'0' + value
    } else {
        b'a' - 10 + value
    }
}
