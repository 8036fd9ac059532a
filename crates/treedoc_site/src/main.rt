//! The program `treedoc_site`: one site of a shared text, kept in a file, for standard input and standard output.
//!
//! `treedoc_site FILE R N` opens FILE, and hands it to `td_shell::run` as a disk, with site R of N as
//! `td_shell::member_of` reads them (`run_words`). It ends with the number of the status, and tells a person on
//! standard error what went wrong. What no clause says is what the system gives as arguments, and as standard input and
//! output, which file FILE is, and that it does as its record says.
#![tactic(auto)]

ghost use Rattle.std.specs.Prelude.{◌≡◌, IfOk};
ghost use Rattle.std.specs.Process.{exit_status};
ghost use Rattle.td_disk.specs.Moments.{IsSynced};
ghost use Rattle.td_shell.specs.Number.{status_number};
ghost use Rattle.td_shell.specs.Running.{IsMember};
ghost use Rattle.treedoc_site.specs.Words.{IsRunByWords, IsRunOnFile};

use std::alloc::Global;
use std::env::FillError;
use std::fs::File;
use std::io;
use std::process::ExitCode;
use std::rt::{Env, Files};
use std::sync::Wait;
use td_base::{Bytes, Memory};
use td_disk::{Disk, FileDisk};
use td_doc::Doc;
use td_io::{ReadSource, Sink, Source, WriteSink};
use td_shell::{Member, Status, member_of, run};
use td_tree::Tree;

fn main(rt: HostRuntime) -> ExitCode {
    let mut source = ReadSource::new(rt.reader());
    let mut sink = WriteSink::new(io::writer(&rt));
    let status = match arguments(&rt, rt.alloc()) {
        Ok(arguments) => run_words(&rt, rt.alloc(), &arguments, &mut source, &mut sink),
        Err(Memory) => Status::Memory,
    };
    // what standard error does not take is let go
    let _told = match status {
        Status::Memory => tell(&rt, "out of memory", None),
        Status::Usage => tell(&rt, "usage: treedoc_site FILE R N", None),
        Status::Read => tell(&rt, "standard input could not be read", source.error()),
        Status::Write => tell(&rt, "standard output could not be written", sink.error()),
        Status::Full { .. } => tell(&rt, "the journal is full", None),
        Status::Done | Status::Bad { .. } | Status::Disk => Ok(()),
    };
    exit_code(status)
}

fn exit_code(status: Status) -> ExitCode
    ensures { exit_status result ≡ status_number status }
{
    ExitCode::from(status.number())
}

// Runs a shell on the file and at the site that the words behind the program's name are. No file is made for words that
// are none.
fn run_words<S: Source, W: Sink, R: Wait + Files<File = File> + AllocGlobal + Eprint>(
    rt: &R,
    alloc: Global,
    arguments: &[Bytes],
    source: &mut S,
    sink: &mut W,
) -> Status
    ensures { IsRunByWords ⟦<Tree as Doc>⟧ ⟦<FileDisk as Disk>⟧ S.Source W.Sink arguments.now source.old source.new
        sink.old sink.new result }
{
    let [_name, path, site, sites] = arguments else {
        return Status::Usage;
    };
    let Ok(path) = str::from_utf8(path.as_slice()) else {
        return Status::Usage;
    };
    match member_of(site.as_slice(), sites.as_slice()) {
        Some(member) => run_file(rt, alloc, path, member, source, sink),
        None => Status::Usage,
    }
}

fn run_file<S: Source, W: Sink, R: Wait + Files<File = File> + AllocGlobal + Eprint>(
    rt: &R,
    alloc: Global,
    path: &str,
    member: Member,
    source: &mut S,
    sink: &mut W,
) -> Status
    requires { IsMember member.site member.sites }
    ensures { IsRunOnFile ⟦<Tree as Doc>⟧ ⟦<FileDisk as Disk>⟧ S.Source W.Sink member.site member.sites source.old
        source.new sink.old sink.new result }
{
    match open(rt, path) {
        Ok(disk) => {
            let (status, disk) = run::<Tree, FileDisk, S, W, R>(
                rt, alloc, member, disk, source, sink,
            );
            tell_of_disk(rt, status, &disk);
            status
        }
        Err(error) => {
            let _told = tell(rt, "the file could not be opened", Some(error));
            Status::Disk
        }
    }
}

// A standard stream that is closed leaves its number to the next file that is opened. So folders take these numbers
// first: else answers would be written into the site's file.
fn open<R: Files<File = File> + AllocGlobal>(rt: &R, path: &str) -> io::Result<FileDisk>
    ensures { IfOk result (λ disk. IsSynced ⟦<FileDisk as Disk>⟧ disk) }
{
    let _for_input = File::open(rt, "/")?;
    let _for_output = File::open(rt, "/")?;
    let _for_errors = File::open(rt, "/")?;
    FileDisk::open(rt, path)
}

// Tells a person what is wrong with the file.
fn tell_of_disk(rt: &impl Eprint, status: Status, disk: &FileDisk) {
    let _told = match status {
        Status::Bad { at } => {
            eprintln!(rt;
                "treedoc_site: the file is no journal of this site: it is wrong from byte {at} on"
            )
        }
        Status::Disk => tell(rt, "the file could not be written", disk.error()),
        _ => Ok(()),
    };
}

// All arguments as the system has them, the program's name first. They need not be text.
fn arguments<E: Env>(rt: &E, alloc: Global) -> Result<Vec<Bytes>, Memory> {
    let mut arguments = Vec::new(alloc);
    for at in 0..usize::MAX {
        let Some(argument) = argument(rt, alloc, at)? else {
            break;
        };
        arguments.push(argument)?;
    }
    Ok(arguments)
}

// The argument with this number, from 0, if there is one.
fn argument<E: Env>(rt: &E, alloc: Global, at: usize) -> Result<Option<Bytes>, Memory> {
    let mut room = Vec::new(alloc);
    // twice as much room as before, where it was not enough
    for digits in 6..usize::BITS {
        room.resize(1 << digits, 0)?;
        match rt.arg(at, &mut room) {
            Ok(len) => {
                let mut argument = Bytes::new(alloc);
                argument.push(&room[..len])?;
                return Ok(Some(argument));
            }
            Err(FillError::NotPresent) => return Ok(None),
            Err(FillError::TooLong) => {}
        }
    }
    Err(Memory)
}

// Tells a person what went wrong, and why.
fn tell(rt: &impl Eprint, what: &str, error: Option<io::Error>) -> io::Result<()> {
    match error {
        Some(error) => eprintln!(rt; "treedoc_site: {what}: {error}"),
        None => eprintln!(rt; "treedoc_site: {what}"),
    }
}
