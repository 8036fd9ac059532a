/// A write that a disk was asked for, also one that failed, or a sync by which all that was written is kept.
#[derive(Debug, Drop)]
pub(crate) enum Call {
    Write { at: usize, bytes: Vec<u8> },
    Sync,
}
