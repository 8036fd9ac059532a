// Runs of the program in memory.
ghost use Rattle.std.specs.Prelude.{IfOk};
ghost use Rattle.td_run.specs.declared.words.Language.TheVariants.{Live};
ghost use Rattle.td_run.specs.Words.{IsReading};

use std::alloc::Global;
use std::process::Abort;
use std::test::Fail;
use td_base::Bytes;
use td_io::{MemSink, MemSource};
use td_run::{Status, is_live, run_plain};

// The words of a command line.
pub fn words_of(alloc: Global, words: &[&str]) -> Result<Vec<Bytes>, Fail> {
    let mut all = Vec::new(alloc);
    for word in words {
        let mut bytes = Bytes::new(alloc);
        bytes.push(word.as_bytes())?;
        all.push(bytes)?;
    }
    Ok(all)
}

// The words of a command that waits for nobody.
pub fn plain_words_of(alloc: Global, words: &[&str]) -> Result<Vec<Bytes>, Fail>
    ensures { IfOk result (λ words. ¬ IsReading words.items Live) }
{
    let words = words_of(alloc, words)?;
    if is_live(&words) {
        return Err("words other than `live`".into());
    }
    Ok(words)
}

// Runs such a command over an input; what it ends with, and what it writes.
pub fn run_of(alloc: Global, words: &[&str], input: &[u8]) -> Result<(Status, MemSink), Fail> {
    let words = plain_words_of(alloc, words)?;
    let mut source = MemSource::new(alloc, input, &[])?;
    let mut sink = MemSink::new(alloc, 4_000_000, &[])?;
    let status = run_plain(alloc, &words, &mut source, &mut sink);
    Ok((status, sink))
}

// A script by its name, and what it prints.
pub struct Example {
    pub name: &'static str,
    pub script: &'static str,
    pub output: &'static str,
}

// Each script is played to its end and prints its output.
pub fn all_print(rt: &impl Abort, alloc: Global, examples: &[Example]) -> Result<(), Fail> {
    for example in examples {
        let (status, sink) = run_of(alloc, &["play"], example.script.as_bytes())?;
        assert_eq!(rt; status, Status::Done, "in {}", example.name);
        assert_eq!(rt;
            sink.held(),
            example.output.as_bytes(),
            "in {}",
            example.name
        );
    }
    Ok(())
}

// Each script is refused with its line.
pub fn all_are_refused(
    rt: &impl Abort,
    alloc: Global,
    examples: &[(&str, &str)],
) -> Result<(), Fail> {
    for (script, line) in examples {
        let (status, sink) = run_of(alloc, &["play"], script.as_bytes())?;
        assert_eq!(rt; status, Status::Script, "at {line}");
        assert_eq!(rt; sink.held(), line.as_bytes());
    }
    Ok(())
}
