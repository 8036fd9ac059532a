/// A side of a node of the tree: bit 0 is `Left`, bit 1 is `Right`, and `Left` is before `Right`.
#[derive(Clone, Copy, Debug, PartialEq, Eq, PartialOrd, Ord, Hash)]
pub enum Bit {
    Left,
    Right,
}
