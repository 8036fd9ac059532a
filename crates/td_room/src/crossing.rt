use crate::answers::Answers;
use crate::worker::Worker;
use td_doc::Doc;
use td_line::Editor;

// Takes what may go to another thread.
fn sent<X: Send>(value: X) -> X {
    value
}

// Each type that moves between threads may do so: else this would not be proved.
fn worker_sent<D: Doc + Send>(worker: Worker<D>) -> Worker<D> {
    sent(worker)
}

fn editor_sent(editor: Editor, answers: Answers) -> (Editor, Answers) {
    (sent(editor), sent(answers))
}
