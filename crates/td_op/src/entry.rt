use crate::input::Input;
use crate::reply::Reply;

/// An entry of a site's history.
#[derive(Clone, Copy, Debug, PartialEq, Eq)]
pub struct Entry {
    pub input: Input,
    pub reply: Reply,
}
