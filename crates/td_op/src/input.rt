use crate::message::Message;
use crate::request::Request;

/// What a site is given: a request of its editor, a message of another site, or leave to take the next operation that
/// waits.
#[derive(Clone, Copy, Debug, PartialEq, Eq)]
pub enum Input {
    Local(Request),
    Take(Message),
    Next,
}
