//! The program once more, for a second stored run: one that is refused.
#![tactic(auto)]

use cdl_program::program;
use cdl_source::HostSink;
use std::process::ExitCode;

fn main(rt: HostRuntime) -> ExitCode {
    let mut err = HostSink::new(rt.stderr());
    program(&rt, &mut err)
}
