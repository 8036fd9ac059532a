/// What travels on a link. An item of which nothing is to be said has the mark `()`, which every item fits.
pub trait Item: Drop {
    /// What both ends of a link agree on. Contracts alone read it.
    type Mark: Drop;

    /// What is known of every item of a link with this mark.
    ghost fits: { Self.Mark → Self → Type 0 };
}
