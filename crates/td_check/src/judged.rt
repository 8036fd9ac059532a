/// What the next entry of a site comes to.
#[derive(Clone, Copy, Debug, PartialEq, Eq)]
pub(crate) enum Judged {
    /// It names what no site can have sent there.
    Lost,
    /// It uses an operation that is not made yet.
    Waits,
    /// Its reply is not that of its replica, or tells of something unfit.
    Wrong,
    /// It is done.
    Done,
}
