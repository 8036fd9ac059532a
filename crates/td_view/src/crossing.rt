use crate::ended::Ended;
use crate::opener::Opener;
use crate::reader::Reader;
use crate::shown::Shown;
use crate::told::Told;
use crate::view_mark::ViewMark;
use crate::views_fault::ViewsFault;
use crate::writer::Writer;

// Takes what may go to another thread.
fn sent<X: Send>(value: X) -> X {
    value
}

// Each type that moves between threads may do so: else this would not be proved.
fn writer_sent(writer: Writer, ended: Ended, told: Told) -> (Writer, Ended, Told) {
    (sent(writer), sent(ended), sent(told))
}

fn reader_sent(reader: Reader, mark: ViewMark, shown: Shown) -> (Reader, ViewMark, Shown) {
    (sent(reader), sent(mark), sent(shown))
}

fn opener_sent(opener: Opener, fault: ViewsFault) -> (Opener, ViewsFault) {
    (sent(opener), sent(fault))
}
