//! What was printed, printed again.
ghost use Rattle.bds_app_log.specs.Asking.{AreDone, IsPrinted};
ghost use Rattle.bds_app_log.specs.Replays.{PrintsAgain, printed_in};

use crate::asking::print_out;
use bds_app_run::{Outcome, Stop, print_err, tell_device};
use bds_host::{Ask, Host, Reply};
use bds_value::copy_text;
use std::alloc::Global;

/// Makes an ask again by which something is printed.
fn print_one<H: Host>(alloc: Global, host: &mut H, ask: &Ask) -> Result<(), Stop>
    ensures { IsPrinted ask.now (H.log host.old) (H.log host.new) result }
{
    match ask {
        Ask::Out(text) => print_out(alloc, host, copy_text(alloc, text)?),
        Ask::Err(text) => print_err(alloc, host, copy_text(alloc, text)?),
        Ask::Read(_) => Ok(()),
        Ask::Stamp(_) => Ok(()),
        Ask::Write { .. } => Ok(()),
        Ask::Remove(_) => Ok(()),
        Ask::Sys(_) => Ok(()),
        Ask::Start { .. } => Ok(()),
        Ask::Next { .. } => Ok(()),
        Ask::Save { .. } => Ok(()),
    }
}

/// Makes the asks again by which something is printed, in order.
fn print_each<H: Host>(alloc: Global, host: &mut H, pairs: &[(Ask, Reply)]) -> Result<(), Stop>
    ensures { AreDone (printed_in pairs.now) (H.log host.old) (H.log host.new) result }
{
    for pair in pairs {
        print_one(alloc, host, &pair.0)?;
    }
    Ok(())
}

/// Prints again what was printed, and gives the answer behind it: this one, unless something wasn't printed.
pub fn print_again<H: Host>(
    alloc: Global,
    host: &mut H,
    pairs: &[(Ask, Reply)],
    came: Outcome,
) -> Outcome
    ensures { PrintsAgain (printed_in pairs.now) came (H.log host.old) (H.log host.new) result }
{
    match print_each(alloc, host, pairs) {
        Ok(()) => came,
        Err(Stop::Fault) => tell_device(alloc, host),
        Err(Stop::NoMemory) => Outcome::NoMemory,
    }
}
