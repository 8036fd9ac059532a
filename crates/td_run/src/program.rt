ghost use Rattle.std.specs.Prelude.{◌∷◌, [], codes};
ghost use Rattle.td_run.specs.declared.words.Language.TheVariants.{Live as InLive};
ghost use Rattle.td_run.specs.Answered.{IsRunOf};
ghost use Rattle.td_run.specs.Words.{IsReading};

use crate::ending::{end, put};
use crate::generated::summary;
use crate::reading::{crashed, judged, played, traced};
use crate::status::Status;
use crate::words::{Form, Language, asked_for, is_live};
use std::alloc::Global;
use std::sync::Wait;
use std::thread::Threads;
use td_base::Bytes;
use td_io::{Sink, Source};
use td_line::Gate;

/// Written where the words are no command.
const USAGE: &[u8] = b"usage: treedoc play | live | kept | check | gen SIZE NUMBER\n";

/// Runs the program: with the one word `play` it reads a script from the source and plays it; with `live` it reads a
/// live script, whose editors and workers run on threads; with `kept` it reads a kept script, whose sites crash and
/// come back; with `check` it reads a trace and judges it; with `gen SIZE NUMBER` it plays a generated script. The sink
/// takes the whole output that goes with the status; where that is `Write` a front of it, and where it is `Read`
/// nothing. What a script of `play` prints is put as it goes, so where the status is `Memory` a front of that is put;
/// of all other commands nothing is put then. With `live` it may wait, and where its sites are is told to the gate.
pub fn run<S: Source, K: Sink, G: Gate + Sync, R: Threads + Wait + Copy + Send + Sync>(
    rt: &R,
    alloc: Global,
    words: &[Bytes],
    source: &mut S,
    sink: &mut K,
    gate: &G,
) -> Status
    ensures { IsRunOf S.Source K.Sink words.now source.old source.new sink.old sink.new result }
{
    if is_live(words) {
        return run_live(rt, alloc, source, sink, gate);
    }
    run_plain(alloc, words, source, sink)
}

/// The same for all words but the one word `live`. It waits for nobody.
pub fn run_plain<S: Source, K: Sink>(
    alloc: Global,
    words: &[Bytes],
    source: &mut S,
    sink: &mut K,
) -> Status
    requires { ¬ IsReading words.now InLive }
    ensures { IsRunOf S.Source K.Sink words.now source.old source.new sink.old sink.new result }
{
    match asked_for(words) {
        Some(Form::Reads(Language::Play)) => played(alloc, source, sink),
        Some(Form::Reads(Language::Kept)) => end(sink, crashed(alloc, source)),
        Some(Form::Reads(Language::Trace)) => end(sink, judged(alloc, source)),
        Some(Form::Gen { size, number }) => end(sink, summary(alloc, size, number)),
        // the words are not `live`
        Some(Form::Reads(Language::Live)) => Status::Usage,
        None => put(sink, USAGE, Status::Usage),
    }
}

/// The same for the one word `live`. Where a worker can be held up is told to the gate. It may wait.
pub fn run_live<S: Source, K: Sink, G: Gate + Sync, R: Threads + Wait + Copy + Send + Sync>(
    rt: &R,
    alloc: Global,
    source: &mut S,
    sink: &mut K,
    gate: &G,
) -> Status
    ensures { IsRunOf S.Source K.Sink (codes "live" ∷ []) source.old source.new sink.old sink.new result }
{
    end(sink, traced(rt, alloc, source, gate))
}
