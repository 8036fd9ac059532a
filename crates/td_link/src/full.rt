/// The queue is full: the item that found no place.
#[derive(Drop)]
pub struct Full<T: Drop> {
    /// The item, handed back.
    pub item: T,
}
