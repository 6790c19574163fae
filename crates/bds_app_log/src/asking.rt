//! Single asks.
ghost use Rattle.bds_host.specs.declared.asks.Ask.TheVariants.{Out, Write};
ghost use Rattle.bds_app_run.specs.Asks.{IsAskDone};

use bds_app_run::Stop;
use bds_host::{Ask, Host, Reply};
use bds_value::ByteText;
use std::alloc::Global;

/// Prints a text.
pub fn print_out<H: Host>(alloc: Global, host: &mut H, text: ByteText) -> Result<(), Stop>
    ensures { IsAskDone (Out text) (H.log host.old) (H.log host.new) result }
{
    match host.ask(alloc, Ask::Out(text))? {
        Reply::Done => Ok(()),
        Reply::Fault => Err(Stop::Fault),
        _ => unreachable!(),
    }
}

/// Writes a file.
pub fn write_file<H: Host>(
    alloc: Global,
    host: &mut H,
    path: ByteText,
    text: ByteText,
) -> Result<(), Stop>
    ensures { IsAskDone (Write path text) (H.log host.old) (H.log host.new) result }
{
    match host.ask(alloc, Ask::Write { path, text })? {
        Reply::Done => Ok(()),
        Reply::Fault => Err(Stop::Fault),
        _ => unreachable!(),
    }
}
