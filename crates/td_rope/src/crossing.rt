use crate::rope::Rope;

// Takes what may go to another thread.
fn sent<X: Send>(value: X) -> X {
    value
}

// A text may do so: else this would not be proved.
fn rope_sent(rope: Rope) -> Rope {
    sent(rope)
}
