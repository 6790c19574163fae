//! Faults of a run, with the file and the line at which they come.
ghost use Rattle.std.specs.Prelude.{◌≡◌, IfOk, slice_get, unwrap_or};
ghost use Rattle.bds_engine_stages.specs.Held.{FailsSo};

use crate::stage::{Cause, Stage};
use crate::stop::Halt;
use bds_host::{Fault, RunFault};
use bds_state::State;
use bds_value::{At, ByteText, NoMemory, copy_text};
use std::alloc::Global;

/// The path of a file of the unit, or else that of the script.
fn path_of(alloc: Global, state: &State, file: u32) -> Result<ByteText, NoMemory>
    ensures { IfOk result (λ path. path ≡ unwrap_or (slice_get state.now.unit.files file) state.now.path) }
{
    match state.unit.unit().files.as_slice().get(file as usize) {
        Some(path) => copy_text(alloc, path),
        None => copy_text(alloc, &state.path),
    }
}

/// The run stops by a fault at a place of the text.
pub fn fails(alloc: Global, state: &State, at: At, fault: RunFault) -> Result<Stage, Halt>
    ensures { FailsSo state.now at fault result }
{
    let path = path_of(alloc, state, at.file)?;
    let line = at.line;
    Ok(Stage::Stopping(Cause::Failed(Fault::Run { path, line, fault })))
}
