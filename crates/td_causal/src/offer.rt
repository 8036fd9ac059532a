/// What becomes of an operation that is offered.
#[derive(Clone, Copy, Debug, PartialEq, Eq)]
pub enum Offer {
    /// It was had before, or waits already. Nothing is kept.
    Repeat,
    /// It waits now for others that it depends on.
    Later,
    /// It can be taken at once. Nothing is kept.
    Ready,
}
