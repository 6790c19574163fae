//! The command that formats a script.

ghost use Rattle.bds_app_fmt.specs.Formatting.{FormatsScript, FormatsTokens, RefusesFor};

use bds_app_run::{Outcome, Stop, fault_of, print, tell, tell_device};
use bds_fmt::{FormatFault, canonical_text};
use bds_front::{FrontFault, Lexed, read_tokens};
use bds_host::{Fault, Host};
use bds_value::ByteText;
use std::alloc::Global;

/// Prints the canonical text of a script that was read, or tells that it is too long.
fn print_canonical<H: Host>(alloc: Global, host: &mut H, path: ByteText, lexed: &Lexed) -> Outcome
    ensures { FormatsTokens path lexed.now (H.log host.old) (H.log host.new) result }
{
    match canonical_text(alloc, &lexed.text, &lexed.tokens) {
        Ok(text) => print(alloc, host, text),
        Err(FormatFault::TooLong) => tell(alloc, host, Fault::TooLong(path), Outcome::Refused),
        Err(FormatFault::NoMemory) => Outcome::NoMemory,
    }
}

/// Tells why a script has no canonical text.
fn refuse<H: Host>(alloc: Global, host: &mut H, fault: FrontFault) -> Outcome
    ensures { RefusesFor fault (H.log host.old) (H.log host.new) result }
{
    match fault_of(alloc, fault) {
        Ok(fault) => tell(alloc, host, fault, Outcome::Refused),
        Err(Stop::Fault) => tell_device(alloc, host),
        Err(Stop::NoMemory) => Outcome::NoMemory,
    }
}

/// Reads a script, without its includes, and prints its canonical text, or tells why it has none.
pub fn format_script<H: Host>(alloc: Global, host: &mut H, path: ByteText) -> Outcome
    ensures { FormatsScript path (H.log host.old) (H.log host.new) result }
{
    match read_tokens(alloc, host, &path) {
        Ok(lexed) => print_canonical(alloc, host, path, &lexed),
        Err(fault) => refuse(alloc, host, fault),
    }
}
