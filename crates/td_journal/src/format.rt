/// The formats of a journal.
#[derive(Clone, Copy, Debug, PartialEq, Eq)]
pub enum Format {
    /// Marked TJ1, without checks.
    Plain,
    /// Marked TJ2: the header and each record have a check, CRC-32C, which goes on from the one before it.
    Checked,
}
