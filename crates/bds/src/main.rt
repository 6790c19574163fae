//! The program.
#![tactic(auto)]

use bds_exec::LocalHost;
use std::process::ExitCode;

fn main(rt: HostRuntime) -> ExitCode {
    bds_app::run_process(&rt, LocalHost::new(&rt, rt.alloc())).0
}
