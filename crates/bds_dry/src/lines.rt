//! What is told in place of an act.
ghost use Rattle.std.specs.Prelude.{◌≡◌, IfOk};
ghost use Rattle.bds_dry.specs.Dry.{sys_line as sys_line_of, task_line as task_line_of};

use bds_around::put_task;
use bds_value::{ByteText, Listed, NoMemory, put};
use std::alloc::Global;

/// In place of a start.
pub fn task_line(alloc: Global, task: u32, cmd: &ByteText) -> Result<ByteText, NoMemory>
    ensures { IfOk result (λ text. text ≡ task_line_of task cmd.now) }
{
    let mut out = Vec::new(alloc);
    put_task(&mut out, task)?;
    put(&mut out, b": ")?;
    put(&mut out, cmd.as_slice())?;
    put(&mut out, b"\n")?;
    Ok(Listed::from_vec(out))
}

/// In place of a command.
pub fn sys_line(alloc: Global, cmd: &ByteText) -> Result<ByteText, NoMemory>
    ensures { IfOk result (λ text. text ≡ sys_line_of cmd.now) }
{
    let mut out = Vec::new(alloc);
    put(&mut out, b"sys: ")?;
    put(&mut out, cmd.as_slice())?;
    put(&mut out, b"\n")?;
    Ok(Listed::from_vec(out))
}
