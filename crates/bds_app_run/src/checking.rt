//! The command that checks a script.
ghost use Rattle.std.specs.Prelude.{◌≡◌, IfOk, ℕ, List, Err, codes};
ghost use Rattle.bds_front.specs.Loading.{Loads};
ghost use Rattle.bds_host.specs.Host.{Log};
ghost use Rattle.bds_app_run.specs.Commands.{ChecksScript};
ghost use Rattle.bds_app_run.specs.Telling.{Prints};

use crate::outcome::Outcome;
use crate::printing::{print, tell, tell_device};
use crate::refusals::fault_of;
use crate::stop::Stop;
use bds_front::{FrontFault, load};
use bds_host::Host;
use bds_value::{ByteText, NoMemory};
use std::alloc::Global;
use std::mem::ManuallyDrop;

/// What is printed of a script that is accepted.
fn ok_text(alloc: Global) -> Result<ByteText, NoMemory>
    ensures { IfOk result (λ text. text ≡ codes "ok\n") }
{
    Ok(ByteText::from_vec(Vec::from_slice(alloc, b"ok\n")?))
}

/// Tells that a script is accepted.
fn accept<H: Host>(alloc: Global, host: &mut H) -> Outcome
    ensures { Prints (codes "ok\n") (H.log host.old) (H.log host.new) result }
{
    match ok_text(alloc) {
        Ok(text) => print(alloc, host, text),
        Err(NoMemory) => Outcome::NoMemory,
    }
}

/// Tells why a script isn't loaded.
fn refuse<H: Host>(alloc: Global, host: &mut H, fault: FrontFault) -> Outcome
    ensures { (path : List ℕ) (before : Log) → Loads path before (H.log host.old) (Err fault) → ChecksScript path before (H.log host.new) result }
{
    match fault_of(alloc, fault) {
        Ok(fault) => tell(alloc, host, fault, Outcome::Refused),
        Err(Stop::Fault) => tell_device(alloc, host),
        Err(Stop::NoMemory) => Outcome::NoMemory,
    }
}

/// Loads a script with its includes, and tells that it is accepted, or why it isn't.
pub fn check_script<H: Host>(alloc: Global, host: &mut H, path: ByteText) -> Outcome
    ensures { ChecksScript path (H.log host.old) (H.log host.new) result }
{
    match load(alloc, host, &path) {
        Ok(typed) => {
            // it stays in memory: the process ends behind the answer
            let _typed = ManuallyDrop::new(typed);
            accept(alloc, host)
        }
        Err(fault) => refuse(alloc, host, fault),
    }
}
