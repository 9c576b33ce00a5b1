//! The program `obda`: the top call over standard input and standard output.
#![tactic(auto)]

ghost use Rattle.std.specs.Prelude.{◌≡◌, ◌≢◌, ◌<◌, ◌↔◌, ◌⊎◌, ℕ, IfErr, map, string_bytes};
ghost use Rattle.std.specs.Process.{exit_status};
ghost use Rattle.host_io.specs.Causes.{Rose};
ghost use Rattle.obda_run.specs.Status.{number_of};
ghost use Rattle.obda_run.specs.Words.{NamesAnswer, NamesRun, NamesCommand};
ghost use Rattle.obda_run.specs.declared.status.Status.TheVariants.{Done, Usage, NoMemory, ReadFault, PrintFault, DiskFault, Damaged};

mod status_line;
#[cfg(test)]
mod tests;

use host_io::{FolderHost, StdSource};
use obda_run::{Status, serve};
use status_line::StatusLine;
use std::alloc::{AllocError, Global};
use std::env;
use std::io::{ErrorKind, Read};
use std::process::ExitCode;
use std::rt::{Env, Files};

/// Runs the command that the words name, over standard input and standard output, writes the line of its ending to
/// standard error, and ends with its number. A line that can't be written is given up: the number stays that of the
/// ending.
fn main(rt: HostRuntime) -> ExitCode {
    let mut source = StdSource::new(rt.reader());
    let mut host = FolderHost::new(&rt);
    let status = match words(&rt) {
        Ok(words) => run(rt.alloc(), &words, &mut source, &mut host),
        Err(status) => status,
    };
    if let Some(line) = StatusLine::of(status) {
        let _ = rt.eprintln(line);
    }
    exit_code(status)
}

/// Runs the command that these words name. Other words touch nothing, and a document's run calls the host for its reply alone.
fn run<R: Read, F: Files + Print>(
    alloc: Global,
    words: &Vec<String>,
    source: &mut StdSource<R>,
    host: &mut FolderHost<F>,
) -> Status
    ensures usage { (result ≡ Usage) ↔ (NamesCommand (map string_bytes words.now.items) → ⊥) }
    ensures usage_touches_nothing { result ≡ Usage → (source.new ≡ source.old) × (host.new ≡ host.old) }
    ensures answer_silent { NamesAnswer (map string_bytes words.now.items) → result ≢ Done → result ≢ PrintFault → host.new ≡ host.old }
    ensures read_fault { result ≡ ReadFault → Rose source.old.read_faults source.new.read_faults }
    ensures read_fault_ends { source.old.read_faults < source.new.read_faults → result ≡ ReadFault }
    ensures print_fault { result ≡ PrintFault → Rose host.old.print_faults host.new.print_faults }
    ensures print_fault_ends { host.old.print_faults < host.new.print_faults → result ≡ PrintFault }
    ensures disk_fault { result ≡ DiskFault → Rose host.old.disk_faults host.new.disk_faults }
    ensures runs { result ≡ DiskFault → NamesRun (map string_bytes words.now.items) }
    ensures damaged_runs { (area at : ℕ) → result ≡ Damaged area at → NamesRun (map string_bytes words.now.items) }
{
    serve(alloc, words, source, host)
}

/// The words after the program's name, or how the program ends without them.
fn words(rt: &(impl Env + AllocGlobal)) -> Result<Vec<String>, Status>
    ensures { IfErr result (λ status. (status ≡ Usage) ⊎ (status ≡ NoMemory)) }
{
    let mut words = match env::args(rt) {
        Ok(words) => words,
        Err(error) => return Err(ending_of(error.kind())),
    };
    let _ = words.next();
    match words.collect(rt.alloc()) {
        Ok(words) => Ok(words),
        Err(AllocError) => Err(Status::NoMemory),
    }
}

/// How the program ends where its words can't be read: want of memory apart, a word isn't UTF-8, which makes a faulty
/// command line.
fn ending_of(kind: ErrorKind) -> Status
    ensures memory { kind ≡ ErrorKind.OutOfMemory → result ≡ NoMemory }
    ensures usage { kind ≢ ErrorKind.OutOfMemory → result ≡ Usage }
{
    if kind == ErrorKind::OutOfMemory {
        Status::NoMemory
    } else {
        Status::Usage
    }
}

/// What the process ends with.
fn exit_code(status: Status) -> ExitCode
    ensures { exit_status result ≡ number_of status }
{
    ExitCode::from(status.number())
}
