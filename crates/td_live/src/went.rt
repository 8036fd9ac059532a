/// How a turn of a desk went.
#[derive(Clone, Copy, Debug, PartialEq, Eq)]
pub enum Went {
    /// The answer to its call came.
    Answered,
    /// It looked at the text.
    Looked,
    /// It sent its next call.
    Submitted,
    /// Nothing is left to do.
    Over,
    /// There was no answer yet, no place for a request, or no text.
    Again,
}
