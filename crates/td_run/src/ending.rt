// How a run ends by what came of its command.
ghost use Rattle.td_run.specs.Answering.{IsAnswerPut, AreBytesPut};

use crate::answer::{Answer, Stop};
use crate::status::Status;
use td_io::{Sink, put_all};

/// Puts the output of a command, where it has one.
pub(crate) fn end<K: Sink>(sink: &mut K, answer: Result<Answer, Stop>) -> Status
    ensures { IsAnswerPut K.Sink answer sink.old sink.new result }
{
    match answer {
        Ok(answer) => put(sink, answer.bytes.as_slice(), answer.status),
        Err(Stop::Read) => Status::Read,
        Err(Stop::Memory) => Status::Memory,
    }
}

/// Puts the whole output that goes with the status.
pub(crate) fn put<K: Sink>(sink: &mut K, output: &[u8], status: Status) -> Status
    ensures { AreBytesPut K.Sink output.now status sink.old sink.new result }
{
    match put_all(sink, output) {
        Ok(()) => status,
        Err(_) => Status::Write,
    }
}
