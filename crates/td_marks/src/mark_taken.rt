/// What became of an operation that was given.
#[derive(Clone, Copy, Debug, PartialEq, Eq)]
pub enum MarkTaken {
    /// It is had now.
    New,
    /// It was had before.
    Repeat,
    /// An operation of its site before it is not had; `want` is the number of the first one.
    Gap { want: u32 },
    /// It is of a buffer with another number of sites.
    Size,
}
