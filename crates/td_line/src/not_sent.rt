/// Why a request was not sent.
#[derive(Clone, Copy, Debug, PartialEq, Eq)]
pub enum NotSent {
    /// The last call, which has this number, has no answer polled.
    Busy { pending: u32 },
    /// All calls are made, of which there are so many.
    Spent { calls: u32 },
    /// The queue was full.
    Full,
}
