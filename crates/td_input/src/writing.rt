ghost use Rattle.std.specs.Prelude.{◌≡◌, ◌≤◌, ◌++◌, ◌∷◌, [], length, IfOk, OnOk};
ghost use Rattle.td_wire.specs.declared.format.Format.TheVariants.{Two};
ghost use Rattle.td_wire.specs.Spelling.{number_bytes, dot_bytes, identity_bytes, slot_bytes, run_bytes};
ghost use Rattle.td_wire.specs.Spelling.{bit_byte as byte_of_bit};
ghost use Rattle.td_input.specs.declared.writing.TheConstants.{MAX_INPUT_LEN};
ghost use Rattle.td_input.specs.Spelling.{place_bytes, request_bytes, CanWrite, input_bytes};

use crate::kind::{
    BEHIND, CANCEL, DELETE, DELETE_ATOM, INSERT, INSERT_AFTER, LOCAL, NEXT, PASTE, PASTE_AFTER,
    PROPOSE, PROPOSE_AT, START, TAKE,
};
use crate::valid::can_write;
use std::alloc::Global;
use td_base::{AtomId, Bit, Bytes, Dot, Memory, Run};
use td_op::{Input, Request};
use td_path::Slot;
use td_wire::{MAX_PACKET_LEN, encode};

/// The greatest number of bytes of an input: that of a packet, and the byte before it.
pub const MAX_INPUT_LEN: usize = 1 + MAX_PACKET_LEN;

/// The bytes of an input.
pub fn write_input(alloc: Global, input: &Input) -> Result<Bytes, Memory>
    ensures bytes { IfOk result (λ bytes. bytes ≡ input_bytes input.now) }
    ensures short { length (input_bytes input.now) ≤ MAX_INPUT_LEN }
    ensures can { CanWrite input.now }
{
    can_write(input);
    let mut bytes = Bytes::new(alloc);
    push_input(&mut bytes, input)?;
    Ok(bytes)
}

fn push_input(out: &mut Bytes, input: &Input) -> Result<(), Memory>
    ensures { OnOk result (out.new ≡ out.old ++ input_bytes input.now) }
{
    match input {
        Input::Local(request) => {
            out.push(&[LOCAL])?;
            push_request(out, request)
        }
        Input::Take(message) => {
            out.push(&[TAKE])?;
            let packet = encode(message);
            out.push(packet.bytes())
        }
        Input::Next => out.push(&[NEXT]),
    }
}

fn push_request(out: &mut Bytes, request: &Request) -> Result<(), Memory>
    ensures { OnOk result (out.new ≡ out.old ++ request_bytes request.now) }
{
    match *request {
        Request::Insert { index, atom } => {
            push_index(out, INSERT, index)?;
            push_run(out, &Run::one(atom))
        }
        Request::InsertAfter { after, atom } => {
            out.push(&[INSERT_AFTER])?;
            push_place(out, after)?;
            push_run(out, &Run::one(atom))
        }
        Request::Delete { index } => push_index(out, DELETE, index),
        Request::DeleteAtom { id } => {
            out.push(&[DELETE_ATOM])?;
            push_identity(out, id)
        }
        Request::Propose { slot } => {
            out.push(&[PROPOSE])?;
            push_slot(out, slot)
        }
        Request::ProposeAt { index, bit } => {
            push_index(out, PROPOSE_AT, index)?;
            out.push(&[bit_byte(bit)])
        }
        Request::Cancel { proposal } => {
            out.push(&[CANCEL])?;
            push_dot(out, proposal)
        }
        Request::Paste { index, run } => {
            push_index(out, PASTE, index)?;
            push_run(out, &run)
        }
        Request::PasteAfter { after, run } => {
            out.push(&[PASTE_AFTER])?;
            push_place(out, after)?;
            push_run(out, &run)
        }
    }
}

fn push_index(out: &mut Bytes, kind: u8, index: u32) -> Result<(), Memory>
    ensures { OnOk result (out.new ≡ out.old ++ kind ∷ number_bytes index) }
{
    out.push(&[kind])?;
    out.push(&index.to_be_bytes())
}

fn push_dot(out: &mut Bytes, dot: Dot) -> Result<(), Memory>
    ensures { OnOk result (out.new ≡ out.old ++ dot_bytes dot) }
{
    out.push(&[dot.site.number()])?;
    out.push(&dot.seq.to_be_bytes())
}

fn push_identity(out: &mut Bytes, id: AtomId) -> Result<(), Memory>
    ensures { OnOk result (out.new ≡ out.old ++ identity_bytes Two id) }
{
    push_dot(out, id.dot)?;
    out.push(&[id.offset])
}

fn push_place(out: &mut Bytes, after: Option<AtomId>) -> Result<(), Memory>
    ensures { OnOk result (out.new ≡ out.old ++ place_bytes after) }
{
    match after {
        None => out.push(&[START]),
        Some(id) => {
            out.push(&[BEHIND])?;
            push_identity(out, id)
        }
    }
}

fn bit_byte(bit: Bit) -> u8
    ensures { result ≡ byte_of_bit bit }
{
    match bit {
        Bit::Left => 0,
        Bit::Right => 1,
    }
}

fn push_slot(out: &mut Bytes, slot: Slot) -> Result<(), Memory>
    ensures { OnOk result (out.new ≡ out.old ++ slot_bytes Two slot) }
{
    match slot {
        Slot::Root => out.push(&[0]),
        Slot::At { atom, bit } => {
            out.push(&[1, bit_byte(bit)])?;
            push_identity(out, atom)
        }
    }
}

fn push_run(out: &mut Bytes, run: &Run) -> Result<(), Memory>
    ensures { OnOk result (out.new ≡ out.old ++ run_bytes Two run.now) }
{
    let count = run.len();
    out.push(&[count])?;
    out.push(&run.lengths()[..count as usize])?;
    out.push(run.bytes())
}
