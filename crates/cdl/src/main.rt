//! `cdl`, a compiler and runner for the Control Description Language: the program of `cdl_program`.
#![tactic(auto)]

use cdl_program::program;
use cdl_source::HostSink;
use std::process::ExitCode;

fn main(rt: HostRuntime) -> ExitCode {
    let mut err = HostSink::new(rt.stderr());
    program(&rt, &mut err)
}
