//! Laws of files.
ghost use Rattle.std.specs.Prelude.{◌≡◌, ◌++◌, [], ℕ, List, IfOk};
ghost use Rattle.bds_value.specs.Fields.{IsField};
ghost use Rattle.bds_state.specs.Parts.{Parts};
ghost use Rattle.bds_state.specs.StateSpelling.{spells2};
ghost use Rattle.bds_ckpt.specs.FileReading.{file_at, spell_file};
ghost use Rattle.bds_ckpt.specs.Loading.{GivesState, IsFieldFile, IsRewritten, Loadable};

use crate::fault::LoadFault;
use crate::loading::load;
use crate::writing::states::write;
use bds_state::{State, numbers_fit, valid_states_may_be_written};
use bds_value::{ByteText, NoMemory};
use std::alloc::Global;

/// What is spelled is read back, and what is read is spelled so; no bytes are those of two states; and no
/// file of a state is the beginning of another, so one that was cut is never loaded: laws, which do
/// nothing.
pub fn states_are_read_back()
    ensures file { IsField file_at spell_file IsFieldFile }
    ensures one { (bytes : List ℕ) (a b : Parts) → Loadable bytes a → Loadable bytes b → a ≡ b }
    ensures uncut { (bytes more : List ℕ) (a b : Parts) → Loadable bytes a → Loadable (bytes ++ more) b → more ≡ [] }
{
    valid_states_may_be_written();
}

/// A state that is written is loaded as it was: a law, which writes and loads.
pub fn write_and_load(alloc: Global, state: &State) -> Result<State, LoadFault>
    ensures { GivesState state.now result }
{
    numbers_fit(state);
    state.is_valid();
    match write(alloc, state) {
        Ok(bytes) => load(alloc, bytes),
        Err(_) => Err(LoadFault::NoMemory),
    }
}

fn write_loaded(alloc: Global, state: &State) -> Result<ByteText, LoadFault>
    ensures { IfOk result (λ bytes. bytes ≡ spells2 state.now) }
{
    match write(alloc, state) {
        Ok(bytes) => Ok(bytes),
        Err(NoMemory) => Err(LoadFault::NoMemory),
    }
}

/// Bytes of the second version that are loaded are written as they were, and those of the first in
/// the second: a law, which loads and writes.
pub fn load_and_write(alloc: Global, bytes: ByteText) -> Result<ByteText, LoadFault>
    ensures { IfOk result (IsRewritten bytes) }
{
    match load(alloc, bytes) {
        Ok(state) => write_loaded(alloc, &state),
        Err(fault) => Err(fault),
    }
}
