// The row that was put last.
use td_base::AtomId;

/// The row that was put last: who types puts the next one right behind it.
#[derive(Clone, Copy, Debug)]
pub struct Last {
    pub id: AtomId,
    /// The number of the row.
    pub row: u32,
    /// The number of live rows before it, where that is counted: it is from the second row on of those that are put
    /// right behind one another.
    pub index: Option<u32>,
}
