use td_op::Reply;

/// What becomes of a message that is given to a site by its number.
#[derive(Clone, Copy, Debug, PartialEq, Eq)]
pub enum Given {
    /// No message has the number.
    NoSuch,
    /// The message is not for the site.
    Stray,
    /// The site took it with this reply, and then so many waiting operations.
    Took { reply: Reply, next: u32 },
}
