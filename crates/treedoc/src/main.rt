//! The program `treedoc`: the words of the command line, standard input and standard output for `td_run`.
//!
//! It ends with the number of the status that `run` answers, and tells a person on standard error what went wrong.
//! What the program does is the contract of `td_run::run`. What no clause says is what the system gives as arguments,
//! as standard input and as standard output.
#![tactic(auto)]

ghost use Rattle.std.specs.Prelude.{◌≡◌, drop};
ghost use Rattle.std.specs.Process.{exit_status};
ghost use Rattle.td_run.specs.Answered.{IsRunOf};
ghost use Rattle.td_run.specs.Number.{status_number};

mod progress;

use progress::Progress;
use std::alloc::Global;
use std::env::FillError;
use std::io;
use std::process::ExitCode;
use std::rt::Env;
use std::sync::Wait;
use std::thread::Threads;
use td_base::{Bytes, Memory};
use td_io::{ReadSource, Sink, Source, WriteSink};
use td_line::Gate;
use td_run::{Status, run};

fn main(rt: HostRuntime) -> ExitCode {
    let mut source = ReadSource::new(rt.reader());
    let mut sink = WriteSink::new(io::writer(&rt));
    let progress = Progress::new(&rt, &rt.stderr());
    let status = match arguments(&rt, rt.alloc()) {
        Ok(arguments) => run_behind_name(
            &rt,
            rt.alloc(),
            &arguments,
            &mut source,
            &mut sink,
            &progress,
        ),
        Err(Memory) => Status::Memory,
    };
    // what standard error does not take is let go
    let _told = match status {
        Status::Read => tell(&rt, "standard input could not be read", source.error()),
        Status::Write => tell(&rt, "standard output could not be written", sink.error()),
        _ => Ok(()),
    };
    exit_code(status)
}

fn exit_code(status: Status) -> ExitCode
    ensures { exit_status result ≡ status_number status }
{
    ExitCode::from(status.number())
}

// Runs the program on all of its arguments but the first, which is its own name.
fn run_behind_name<S: Source, K: Sink, G: Gate + Sync, R: Threads + Wait + Copy + Send + Sync>(
    rt: &R,
    alloc: Global,
    arguments: &[Bytes],
    source: &mut S,
    sink: &mut K,
    gate: &G,
) -> Status
    ensures { IsRunOf S.Source K.Sink (drop 1 arguments.now) source.old source.new sink.old sink.new result }
{
    match arguments {
        [_name, words @ ..] => run(rt, alloc, words, source, sink, gate),
        [] => run(rt, alloc, &[], source, sink, gate),
    }
}

// All arguments as the system has them, the program's name first. They need not be text.
fn arguments<E: Env>(rt: &E, alloc: Global) -> Result<Vec<Bytes>, Memory> {
    let mut arguments = Vec::new(alloc);
    for at in 0..usize::MAX {
        let Some(argument) = argument(rt, alloc, at)? else {
            break;
        };
        arguments.push(argument)?;
    }
    Ok(arguments)
}

// The argument with this number, from 0, if there is one.
fn argument<E: Env>(rt: &E, alloc: Global, at: usize) -> Result<Option<Bytes>, Memory> {
    let mut room = Vec::new(alloc);
    // twice as much room as before, where it was not enough
    for digits in 6..usize::BITS {
        room.resize(1 << digits, 0)?;
        match rt.arg(at, &mut room) {
            Ok(len) => {
                let mut argument = Bytes::new(alloc);
                argument.push(&room[..len])?;
                return Ok(Some(argument));
            }
            Err(FillError::NotPresent) => return Ok(None),
            Err(FillError::TooLong) => {}
        }
    }
    Err(Memory)
}

// Tells a person which stream failed, and why.
fn tell(rt: &impl Eprint, failed: &str, error: Option<io::Error>) -> io::Result<()> {
    match error {
        Some(error) => eprintln!(rt; "treedoc: {failed}: {error}"),
        None => Ok(()),
    }
}
