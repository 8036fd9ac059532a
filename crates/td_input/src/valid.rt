ghost use Rattle.td_input.specs.Spelling.{IsIndex, index_of, CanWrite};

use td_op::{Input, Request};

/// Tells a caller that the input has bytes of its own, as every value of the type has.
pub(crate) fn can_write(input: &Input)
    ensures { CanWrite input.now }
{
    match input {
        Input::Local(request) => {
            request.is_in_range();
            index_in_range(request);
        }
        Input::Take(message) => message.is_in_range(),
        Input::Next => {}
    }
}

fn index_in_range(request: &Request)
    ensures { IsIndex (index_of request.now) }
{
    let _index = match request {
        Request::Insert { index, .. }
        | Request::Delete { index }
        | Request::ProposeAt { index, .. }
        | Request::Paste { index, .. } => *index,
        _ => 0,
    };
}
