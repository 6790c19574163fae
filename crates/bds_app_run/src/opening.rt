//! The state that a file holds.
ghost use Rattle.std.specs.Prelude.{◌≡◌, ℕ, List, Err};
ghost use Rattle.bds_host.specs.declared.asks.Ask.TheVariants.{Read};
ghost use Rattle.bds_host.specs.declared.asks.Reply.TheVariants.{Bytes};
ghost use Rattle.bds_host.specs.Host.{Log, Answered};
ghost use Rattle.bds_state.specs.Parts.{Parts};
ghost use Rattle.bds_ckpt.specs.Loading.{GivesState, Loadable};
ghost use Rattle.bds_app_run.specs.Asks.{IsRead};
ghost use Rattle.bds_app_run.specs.Ways.{IsOpened, is_want};

use crate::asking::read_file;
use crate::stop::Stop;
use bds_ckpt::{LoadFault, load};
use bds_host::{Fault, Host};
use bds_state::State;
use bds_value::ByteText;
use std::alloc::Global;

/// Why there is no state of a file.
#[derive(Drop)]
pub enum FileFault {
    /// It is missing or holds none, which this fault tells.
    HoldsNone(Fault),
    /// The read was answered by a fault.
    Unread,
    NoMemory,
}

/// Bytes aren't loaded for want of memory, and not since they are those of no state.
fn is_want(fault: LoadFault) -> bool
    ensures { result ≡ is_want fault }
{
    match fault {
        LoadFault::NoMemory => true,
        LoadFault::Short(_) => false,
        LoadFault::BadTag(_, _) => false,
        LoadFault::BadNumber(_, _) => false,
        LoadFault::NotRising(_) => false,
        LoadFault::Extra(_) => false,
        LoadFault::BadSum(_) => false,
        LoadFault::Unverified { .. } => false,
        LoadFault::BadThread(_) => false,
        LoadFault::BadFrame(_, _) => false,
        LoadFault::BadTask(_) => false,
        LoadFault::BadRule(_) => false,
    }
}

/// Why bytes aren't loaded.
fn fault_of(path: ByteText, fault: LoadFault) -> FileFault
    ensures { (before after : Log) (bytes : List ℕ) → Answered before after (Read path) (Bytes bytes) → ((s : Parts) → Loadable bytes s → GivesState s (Err fault))
        → IsOpened path before after (Err result) }
{
    if is_want(fault) {
        FileFault::NoMemory
    } else {
        FileFault::HoldsNone(Fault::NotLoadable(path))
    }
}

/// The state that the bytes of a file are those of.
fn load_state(alloc: Global, path: ByteText, bytes: ByteText) -> Result<State, FileFault>
    ensures { (before after : Log) → Answered before after (Read path) (Bytes bytes) → IsOpened path before after result }
{
    match load(alloc, bytes) {
        Ok(state) => Ok(state),
        Err(fault) => Err(fault_of(path, fault)),
    }
}

/// Why a file isn't read.
fn unread(stop: Stop) -> FileFault
    ensures { (path : List ℕ) (before after : Log) → IsRead path before after (Err stop) → IsOpened path before after (Err result) }
{
    match stop {
        Stop::Fault => FileFault::Unread,
        Stop::NoMemory => FileFault::NoMemory,
    }
}

/// Reads the file of a path, and gives the state that it holds.
pub fn open_file<H: Host>(alloc: Global, host: &mut H, path: ByteText) -> Result<State, FileFault>
    ensures { IsOpened path (H.log host.old) (H.log host.new) result }
{
    match read_file(alloc, host, &path) {
        Ok(Some(bytes)) => load_state(alloc, path, bytes),
        Ok(None) => Err(FileFault::HoldsNone(Fault::Missing(path))),
        Err(stop) => Err(unread(stop)),
    }
}
