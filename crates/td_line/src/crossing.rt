use crate::ask::Ask;
use crate::editor::Editor;
use crate::line::Line;
use crate::report::Report;

// Takes what may go to another thread.
fn sent<X: Send>(value: X) -> X {
    value
}

// Each type that moves between threads may do so: else this would not be proved.
fn ends_sent(line: Line, editor: Editor) -> (Line, Editor) {
    (sent(line), sent(editor))
}

fn items_sent(ask: Ask, report: Report) -> (Ask, Report) {
    (sent(ask), sent(report))
}
