use td_op::Request;

/// What an editor does next.
#[derive(Clone, Copy, Debug, PartialEq, Eq)]
pub enum Next {
    /// The call with this request.
    Ask(Request),
    /// A look.
    Look,
    /// Nothing: its lines are done.
    Over,
}
