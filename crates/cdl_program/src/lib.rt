//! What `cdl` does as a program: all of its `main` but the handle of standard error.
#![tactic(auto)]

ghost use Rattle.std.specs.Prelude.{◌≡◌};
ghost use Rattle.std.specs.Process.{exit_status};
ghost use Rattle.cdl_job.specs.Outcome.{code_of};

use cdl_command::{Outcome, command};
use cdl_source::{HostFiles, HostSink, Sink};
use std::process::ExitCode;
use std::rt::{Env, Files};
use std::{env, io};

// The words behind the program's name. Words that are no text are no job.
fn given_words<R: Env + AllocGlobal>(rt: &R) -> io::Result<Vec<String>> {
    let mut args = env::args(rt)?;
    let _program = args.next();
    Ok(args.collect(rt.alloc())?)
}

// The status with which the program ends.
fn exit(outcome: &Outcome) -> ExitCode
    ensures { exit_status result ≡ code_of outcome.now }
{
    ExitCode::from(outcome.code())
}

/// Hands the words behind the program's name, the host's files and its standard output to `command`, and gives the status with which
/// the program ends.
pub fn program<R: Files + Print + Env + AllocGlobal, E: Sink>(rt: &R, err: &mut E) -> ExitCode {
    let mut files = HostFiles::new(rt);
    let mut out = HostSink::new(io::writer(rt));
    let outcome = match given_words(rt) {
        Ok(words) => command(rt.alloc(), &words, &mut files, &mut out, err),
        Err(_) => command(rt.alloc(), &[], &mut files, &mut out, err),
    };
    exit(&outcome)
}
