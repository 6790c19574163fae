//! What is told and printed.
ghost use Rattle.std.specs.Prelude.{ℕ, List};
ghost use Rattle.bds_host.specs.declared.asks.Ask.TheVariants.{Err as Tells};
ghost use Rattle.bds_host.specs.Host.{Log};
ghost use Rattle.bds_host.specs.Message.{message_of};
ghost use Rattle.bds_meaning.specs.Begin.{Refusing};
ghost use Rattle.bds_app_run.specs.Saves.{Quiet};
ghost use Rattle.bds_app_run.specs.declared.call.Call.{Call};
ghost use Rattle.bds_app_run.specs.Telling.{Prints, Says, TellsDevice, TellsFault};
ghost use Rattle.bds_app_run.specs.Asks.{IsAskDone};
ghost use Rattle.bds_app_run.specs.Ways.{Reaches, at_end};

use crate::asking::print_err;
use crate::ending::Ending;
use crate::outcome::Outcome;
use crate::stop::Stop;
use bds_host::{Ask, Fault, Host, Reply, message_of};
use bds_value::{ByteText, NoMemory};
use std::alloc::Global;

/// Prints the message of a fault.
pub fn complain<H: Host>(alloc: Global, host: &mut H, fault: Fault) -> Result<(), Stop>
    ensures { IsAskDone (Tells (message_of fault)) (H.log host.old) (H.log host.new) result }
{
    let text = message_of(alloc, fault)?;
    print_err(alloc, host, text)
}

/// Tells why a job isn't run.
pub fn refuse<H: Host>(alloc: Global, host: &mut H, fault: Fault) -> Result<Ending, Stop>
    ensures reaches { (c : Call) → Reaches c (Refusing fault) (H.log host.old) (H.log host.new) at_end result }
    ensures quiet { Quiet (H.log host.old) (H.log host.new) }
{
    match complain(alloc, host, fault) {
        Ok(()) => Ok(Ending::Refused),
        Err(stop) => Err(stop),
    }
}

/// Tells that a reply was a fault.
pub fn tell_device<H: Host>(alloc: Global, host: &mut H) -> Outcome
    ensures { TellsDevice (H.log host.old) (H.log host.new) result }
{
    match complain(alloc, host, Fault::Device) {
        Ok(()) => Outcome::Device,
        Err(Stop::Fault) => Outcome::Device,
        Err(Stop::NoMemory) => Outcome::NoMemory,
    }
}

/// Prints a text for errors, and gives the answer behind it: this one, unless the text wasn't printed.
pub fn say<H: Host>(alloc: Global, host: &mut H, text: ByteText, refusal: Outcome) -> Outcome
    ensures { Says text refusal (H.log host.old) (H.log host.new) result }
{
    match print_err(alloc, host, text) {
        Ok(()) => refusal,
        Err(Stop::Fault) => tell_device(alloc, host),
        Err(Stop::NoMemory) => Outcome::NoMemory,
    }
}

/// Tells a fault, and gives the answer behind it.
pub fn tell<H: Host>(alloc: Global, host: &mut H, fault: Fault, refusal: Outcome) -> Outcome
    ensures { TellsFault fault refusal (H.log host.old) (H.log host.new) result }
{
    match message_of(alloc, fault) {
        Ok(text) => say(alloc, host, text, refusal),
        Err(NoMemory) => Outcome::NoMemory,
    }
}

/// Prints a text, and gives the answer behind it.
pub fn print<H: Host>(alloc: Global, host: &mut H, text: ByteText) -> Outcome
    ensures { Prints text (H.log host.old) (H.log host.new) result }
{
    match host.ask(alloc, Ask::Out(text)) {
        Ok(Reply::Done) => Outcome::Ended(0),
        Ok(Reply::Fault) => tell_device(alloc, host),
        Ok(_) => unreachable!(),
        Err(NoMemory) => Outcome::NoMemory,
    }
}
