use crate::desk::Desk;

// Takes what may go to another thread.
fn sent<X: Send>(value: X) -> X {
    value
}

// A desk may go to another thread: else this would not be proved.
fn desk_sent(desk: Desk) -> Desk {
    sent(desk)
}
