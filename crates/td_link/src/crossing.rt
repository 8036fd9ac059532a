use crate::full::Full;
use crate::item::Item;
use crate::left::Left;
use crate::rx::Rx;
use crate::tx::Tx;

// Takes what may go to another thread.
fn sent<X: Send>(value: X) -> X {
    value
}

// Each type of the crate may go to another thread where its items may: else this would not be proved.
fn all_sent<T: Item + Send>(
    tx: Tx<T>,
    rx: Rx<T>,
    full: Full<T>,
    left: Left<T>,
) -> (Tx<T>, Rx<T>, Full<T>, Left<T>) {
    (sent(tx), sent(rx), sent(full), sent(left))
}
