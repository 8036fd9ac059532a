ghost use Rattle.std.specs.Prelude.{◌≡◌, ◌∷◌, Some, IfSome};
ghost use Rattle.td_op.specs.declared.input.Input.{Input};
ghost use Rattle.td_op.specs.declared.request.Request.{Request};
ghost use Rattle.td_op.specs.declared.message.Message.{Message};
ghost use Rattle.td_op.specs.Input.{IsRequest};
ghost use Rattle.td_op.specs.Message.{IsMessage};
ghost use Rattle.td_wire.specs.declared.format.Format.TheVariants.{Two};
ghost use Rattle.td_wire.specs.Spelling.{spelling};
ghost use Rattle.td_input.specs.Spelling.{IsIndex, index_of, request_bytes, CanWrite, input_bytes};

use crate::kind::{LOCAL, NEXT, TAKE};
use crate::request::request;
use crate::valid::can_write;
use td_op::{Input, Message, Request};
use td_wire::{Reader, decode};

/// The input that these bytes are. It takes no memory.
pub fn read_input(bytes: &[u8]) -> Option<Input>
    // What is read is written so.
    ensures found { IfSome result (λ input. bytes.now ≡ input_bytes input) }
    ensures can { IfSome result CanWrite }
    // What is written so is read.
    ensures only { (input : Input) → CanWrite input → bytes.now ≡ input_bytes input → result ≡ Some input }
{
    let input = match bytes {
        [LOCAL, request @ ..] => Input::Local(read_request(request)?),
        [TAKE, packet @ ..] => Input::Take(read_packet(packet)?),
        [NEXT] => Input::Next,
        _ => return None,
    };
    can_write(&input);
    Some(input)
}

fn read_request(bytes: &[u8]) -> Option<Request>
    ensures found { IfSome result (λ request. bytes.now ≡ request_bytes request) }
    ensures only { (request : Request) → IsRequest request → IsIndex (index_of request)
        → bytes.now ≡ request_bytes request → result ≡ Some request }
{
    let mut reader = Reader { rest: bytes };
    match request(&mut reader) {
        Ok(request) if reader.rest.is_empty() => Some(request),
        Ok(_) => None,
        Err(_) => None,
    }
}

// A packet of format 2.
fn read_packet(bytes: &[u8]) -> Option<Message>
    ensures found { IfSome result (λ message. bytes.now ≡ spelling Two message) }
    ensures only { (message : Message) → IsMessage message → bytes.now ≡ spelling Two message → result ≡ Some message }
{
    match bytes {
        [_, b'2', ..] => decode(bytes).ok(),
        _ => None,
    }
}
