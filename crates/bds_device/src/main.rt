//! The program once more, for a run of all examples on the real device.
#![tactic(auto)]

#[cfg(test)]
mod tests;

use bds_exec::LocalHost;
use std::process::ExitCode;

fn main(rt: HostRuntime) -> ExitCode {
    bds_app::run_process(&rt, LocalHost::new(&rt, rt.alloc())).0
}
