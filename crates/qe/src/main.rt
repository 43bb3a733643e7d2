//! The program: it hands its words, standard input and standard output to the top call, and ends with its status.
//! Knows nothing of what is read or written.
#![tactic(auto)]

ghost use Rattle.std.specs.Prelude.{◌≡◌, ◌≢◌, ◌⊎◌, ◌∷◌, [], map, IfOk, IsErr};
ghost use Rattle.std.specs.String.{string_bytes};
ghost use Rattle.qe_program.specs.Asked.{AsksNothing, ReadsNothing};

use qe_base::{OutOfMemory, Sink, Source, StdSink, StdSource};
use qe_program::{Status, run_alone};
use std::alloc::Global;
use std::env;
use std::io::ErrorKind;
use std::process::ExitCode;
use std::rt::Env;

/// The words of the command line, without the program's name. Where they cannot be had as text, one empty word stands
/// for them, which gives no job.
fn words<R: Env + AllocGlobal>(rt: &R) -> Result<Vec<String>, OutOfMemory> {
    match env::args(rt) {
        Ok(args) => args.skip(1).collect(rt.alloc()),
        Err(error) if error.kind() == ErrorKind::OutOfMemory => Err(OutOfMemory),
        Err(_) => no_text(rt.alloc()),
    }
}

/// One empty word.
fn no_text(alloc: Global) -> Result<Vec<String>, OutOfMemory>
    ensures { IfOk result (λ words. map string_bytes words.items ≡ [] ∷ []) }
{
    let mut words = Vec::new(alloc);
    words.push(String::new(alloc))?;
    Ok(words)
}

/// Makes the top call. Where there was no memory for the words, nothing is read and written.
fn outcome<S: Source, K: Sink>(
    alloc: Global,
    words: Result<Vec<String>, OutOfMemory>,
    source: &mut S,
    sink: &mut K,
) -> Status
    ensures no_memory { IsErr words → (result ≡ Status.OutOfMemory) × (source.new ≡ source.old) }
    ensures sink_kept { (result ≡ Status.ReadFault) ⊎ (result ≡ Status.OutOfMemory)
        → sink.new ≡ sink.old }
    ensures words { IfOk words (λ all. ReadsNothing (map string_bytes all.items)
        → source.new ≡ source.old) }
    ensures answer { IfOk words (λ all. AsksNothing (map string_bytes all.items)
        → result ≢ Status.Ok) }
{
    match words {
        Ok(words) => run_alone(alloc, &words, source, sink),
        Err(_) => Status::OutOfMemory,
    }
}

fn main(rt: HostRuntime) -> ExitCode {
    let mut source = StdSource::new(rt.stdin());
    let mut sink = StdSink::new(rt.stdout());
    let words = words(&rt);
    ExitCode::from(outcome(rt.alloc(), words, &mut source, &mut sink).code())
}
