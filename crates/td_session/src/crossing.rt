use crate::session::Session;

// Takes what may go to another thread.
fn sent<X: Send>(value: X) -> X {
    value
}

// A session may do so: else this would not be proved.
fn session_sent(session: Session) -> Session {
    sent(session)
}
