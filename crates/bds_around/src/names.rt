//! The name of a task, as a part of texts.
ghost use Rattle.std.specs.Prelude.{◌≡◌, ◌++◌, OnOk, decimal};
ghost use Rattle.bds_around.specs.Names.{task_name};

use bds_value::{NoMemory, put};
use itoa::Buffer;

/// Puts a number in decimal digits behind bytes.
pub fn put_number(out: &mut Vec<u8>, number: u32) -> Result<(), NoMemory>
    ensures { OnOk result (out.new.items ≡ out.old.items ++ decimal number) }
{
    let mut buffer = Buffer::new();
    put(out, buffer.format(number).as_bytes())
}

/// Puts the name of a task behind bytes.
pub fn put_task(out: &mut Vec<u8>, task: u32) -> Result<(), NoMemory>
    ensures { OnOk result (out.new.items ≡ out.old.items ++ task_name task) }
{
    put(out, b"task.")?;
    put_number(out, task)
}
