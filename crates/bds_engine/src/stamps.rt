//! Stamps of files.
ghost use Rattle.std.specs.Prelude.{◌≡◌, ◌++◌};
ghost use Rattle.std.specs.List.{list_any};
ghost use Rattle.bds_rules.specs.OutOfDate.{out_of_date};
ghost use Rattle.bds_tasks.specs.Tasks.{pending_makes};
ghost use Rattle.bds_engine.specs.Stamping.{AreStamped, Tells};

use bds_host::{Ask, Host, Reply};
use bds_rules::out_of_date;
use bds_tasks::TaskTable;
use bds_value::{ByteText, Listed, NoMemory, Stamp, Stamps, Texts, copy_text};
use std::alloc::Global;

/// Asks the stamp of a file. None where the reply was a fault.
fn stamp_of<H: Host>(
    alloc: Global,
    file: &ByteText,
    host: &mut H,
) -> Result<Option<Stamp>, NoMemory>
    ensures { Tells file.now (H.log host.old) (H.log host.new) result }
{
    let path = copy_text(alloc, file)?;
    match host.ask(alloc, Ask::Stamp(path))? {
        Reply::Stamp { there, size, time } => Ok(Some(Stamp { there, size, time })),
        Reply::Fault => Ok(None),
        _ => unreachable!(),
    }
}

/// Asks the stamps of files, in their order, up to a reply that is a fault.
pub(crate) fn stamps_of<H: Host>(
    alloc: Global,
    files: &[ByteText],
    host: &mut H,
) -> Result<Option<Stamps>, NoMemory>
    ensures { AreStamped files.now (H.log host.old) (H.log host.new) result }
{
    let mut stamps = Listed::new(alloc);
    for i in 0..files.len() {
        match stamp_of(alloc, &files[i], host)? {
            Some(stamp) => stamps.push(stamp)?,
            None => return Ok(None),
        }
    }
    Ok(Some(stamps))
}

/// A pending task makes one of these files.
fn any_pending(tasks: &TaskTable, files: &[ByteText]) -> bool
    ensures { result ≡ list_any (pending_makes tasks.now) files.now }
{
    for file in files {
        if tasks.pending_makes(file) {
            return true;
        }
    }
    false
}

/// The first files are out of date against the second, by their stamps.
pub(crate) fn is_old(
    tasks: &TaskTable,
    outs: &Texts,
    ins: &Texts,
    left: &Stamps,
    right: &Stamps,
) -> bool
    ensures { result ≡ out_of_date left.now right.now (list_any (pending_makes tasks.now) (outs.now ++ ins.now)) }
{
    let pending = any_pending(tasks, outs.as_slice()) || any_pending(tasks, ins.as_slice());
    out_of_date(left, right, pending)
}
