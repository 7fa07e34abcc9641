//! Temjoask: plans on SBPL's state lattice, with a proved bound on the cost of the path.
#![tactic(auto)]

use sbpl_main::start;
use std::process::ExitCode;

fn main(rt: HostRuntime) -> ExitCode {
    ExitCode::from(start(&rt, &mut rt.stderr()))
}
