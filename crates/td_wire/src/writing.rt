ghost use Rattle.std.specs.Prelude.{◌≡◌, ◌≤◌, ◌+◌, ◌++◌, ◌∷◌, length, map};
ghost use Rattle.td_base.specs.Run.{IsRun};
ghost use Rattle.td_base.specs.Value.{IsDot, IsAtomId};
ghost use Rattle.td_clock.specs.Vector.{IsVector};
ghost use Rattle.td_path.specs.Slot.{IsSlot};
ghost use Rattle.td_op.specs.declared.message.Message.{Message};
ghost use Rattle.td_op.specs.Message.{IsBody, IsMessage};
ghost use Rattle.td_wire.specs.declared.format.Format.TheVariants.{Two};
ghost use Rattle.td_wire.specs.declared.length.TheConstants.{DOT_LEN, IDENTITY_LEN, MAX_SLOT_LEN, MAX_RUN_PART_LEN};
ghost use Rattle.td_wire.specs.declared.length.TheConstants.{MAX_DEPS_LEN, MAX_BODY_LEN, MAX_OP_LEN, VOTE_LEN};
ghost use Rattle.td_wire.specs.declared.length.TheConstants.{MAX_PACKET_LEN};
ghost use Rattle.td_wire.specs.Spelling.{dot_bytes, identity_bytes, slot_bytes, run_bytes, deps_bytes, kind};
ghost use Rattle.td_wire.specs.Spelling.{body_bytes, op_bytes, vote_kind, vote_bytes, Spells};

use crate::format::{
    ABORT, AT, COMMIT, DELETE, DIGIT_TWO, INSERT, LEFT, LETTER, PROPOSE, RIGHT, ROOT, VOTE,
};
use crate::packet::Packet;
use crate::packet_bytes::PacketBytes;
use td_base::{AtomId, Bit, Dot, Run, Site};
use td_clock::Vector;
use td_op::{Body, Message, Op, Vote};
use td_path::Slot;

/// The packet of the message, in format 2. Takes no memory.
pub fn encode(message: &Message) -> Packet
    ensures { Spells Two message.now result }
{
    let mut bytes = PacketBytes::new();
    bytes.extend(&[LETTER, DIGIT_TWO]);
    match message {
        Message::Op(op) => put_op(&mut bytes, op),
        Message::Vote(vote) => put_vote(&mut bytes, vote),
    }
    Packet { bytes }
}

fn put_op(bytes: &mut PacketBytes, op: &Op)
    requires { length bytes.old + MAX_OP_LEN ≤ MAX_PACKET_LEN }
    ensures bytes { bytes.new ≡ bytes.old ++ kind op.now.body ∷ op_bytes Two op.now }
    ensures can { IsMessage (Message.Op op.now) }
{
    let body = op.body_ref();
    bytes.push(kind_of(body));
    put_dot(bytes, op.dot());
    put_deps(bytes, op.deps());
    put_body(bytes, body);
}

fn put_vote(bytes: &mut PacketBytes, vote: &Vote)
    requires { length bytes.old + VOTE_LEN ≤ MAX_PACKET_LEN }
    ensures bytes { bytes.new ≡ bytes.old ++ vote_kind ∷ vote_bytes vote.now }
    ensures can { IsMessage (Message.Vote vote.now) }
{
    bytes.push(VOTE);
    bytes.push(vote.voter.number());
    put_dot(bytes, vote.proposal);
    bytes.push(u8::from(vote.yes));
}

fn kind_of(body: &Body) -> u8
    ensures { result ≡ kind body.now }
{
    match body {
        Body::Insert { .. } => INSERT,
        Body::Delete { .. } => DELETE,
        Body::Propose { .. } => PROPOSE,
        Body::Commit { .. } => COMMIT,
        Body::Abort { .. } => ABORT,
    }
}

fn put_deps(bytes: &mut PacketBytes, deps: &Vector)
    requires { length bytes.old + MAX_DEPS_LEN ≤ MAX_PACKET_LEN }
    ensures bytes { bytes.new ≡ bytes.old ++ deps_bytes deps.now }
    ensures vector { IsVector deps.now }
{
    let n = deps.size();
    bytes.push(n);
    for i in 0..n {
        let site = Site::new(i + 1).unwrap();
        bytes.extend(&deps.get(site).to_be_bytes());
    }
}

fn put_body(bytes: &mut PacketBytes, body: &Body)
    requires { length bytes.old + MAX_BODY_LEN ≤ MAX_PACKET_LEN }
    ensures bytes { bytes.new ≡ bytes.old ++ body_bytes Two body.now }
    ensures body { IsBody body.now }
{
    match *body {
        Body::Insert { slot, run } => {
            put_slot(bytes, slot);
            put_run(bytes, &run);
        }
        Body::Delete { target } => put_identity(bytes, target),
        Body::Propose { slot } => put_slot(bytes, slot),
        Body::Commit { proposal } | Body::Abort { proposal } => put_dot(bytes, proposal),
    }
}

fn put_dot(bytes: &mut PacketBytes, dot: Dot)
    requires { length bytes.old + DOT_LEN ≤ MAX_PACKET_LEN }
    ensures bytes { bytes.new ≡ bytes.old ++ dot_bytes dot }
    ensures dot { IsDot dot }
{
    bytes.push(dot.site.number());
    bytes.extend(&dot.seq.to_be_bytes());
}

fn put_identity(bytes: &mut PacketBytes, id: AtomId)
    requires { length bytes.old + IDENTITY_LEN ≤ MAX_PACKET_LEN }
    ensures bytes { bytes.new ≡ bytes.old ++ identity_bytes Two id }
    ensures identity { IsAtomId id }
{
    put_dot(bytes, id.dot);
    bytes.push(id.offset);
}

fn put_slot(bytes: &mut PacketBytes, slot: Slot)
    requires { length bytes.old + MAX_SLOT_LEN ≤ MAX_PACKET_LEN }
    ensures bytes { bytes.new ≡ bytes.old ++ slot_bytes Two slot }
    ensures slot { IsSlot slot }
{
    match slot {
        Slot::Root => bytes.push(ROOT),
        Slot::At { atom, bit } => {
            bytes.push(AT);
            bytes.push(match bit {
                Bit::Left => LEFT,
                Bit::Right => RIGHT,
            });
            put_identity(bytes, atom);
        }
    }
}

fn put_run(bytes: &mut PacketBytes, run: &Run)
    requires { length bytes.old + MAX_RUN_PART_LEN ≤ MAX_PACKET_LEN }
    ensures bytes { bytes.new ≡ bytes.old ++ run_bytes Two run.now }
    ensures run { IsRun run.now }
{
    let count = run.len();
    bytes.push(count);
    bytes.extend(&run.lengths()[..count as usize]);
    bytes.extend(run.bytes());
}
