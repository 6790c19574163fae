//! Single asks.
ghost use Rattle.bds_host.specs.declared.asks.Ask.TheVariants.{Err as Tells};
ghost use Rattle.bds_app_run.specs.Asks.{IsAskDone, IsRead};

use crate::stop::Stop;
use bds_host::{Ask, Host, Reply};
use bds_value::{ByteText, copy_text};
use std::alloc::Global;

/// Prints a text for errors.
pub fn print_err<H: Host>(alloc: Global, host: &mut H, text: ByteText) -> Result<(), Stop>
    ensures { IsAskDone (Tells text) (H.log host.old) (H.log host.new) result }
{
    match host.ask(alloc, Ask::Err(text))? {
        Reply::Done => Ok(()),
        Reply::Fault => Err(Stop::Fault),
        _ => unreachable!(),
    }
}

/// The bytes of a file, none where it is missing.
pub fn read_file<H: Host>(
    alloc: Global,
    host: &mut H,
    path: &ByteText,
) -> Result<Option<ByteText>, Stop>
    ensures { IsRead path.now (H.log host.old) (H.log host.new) result }
{
    let asked = copy_text(alloc, path)?;
    match host.ask(alloc, Ask::Read(asked))? {
        Reply::Bytes(bytes) => Ok(Some(bytes)),
        Reply::Missing => Ok(None),
        Reply::Fault => Err(Stop::Fault),
        _ => unreachable!(),
    }
}
