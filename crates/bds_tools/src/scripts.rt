//! A large script that is made from a number.
ghost use Rattle.std.specs.Prelude.{◌≡◌, ◌≤◌, ◌++◌, IfOk, OnOk};
ghost use Rattle.bds_tools.specs.Make.{add_line, make_text, task_line, task_lines};

use crate::lines::put_numbered;
use bds_value::{ByteText, Listed, NoMemory, put};
use std::alloc::Global;

fn put_task(out: &mut Vec<u8>, number: u64) -> Result<(), NoMemory>
    ensures { OnOk result (out.new.items ≡ out.old.items ++ task_line number) }
{
    put_numbered(out, b"task('o", number)?;
    put_numbered(out, b"' <- 'i", number)?;
    put_numbered(out, b"', cpus := ", 1 + number % 3)?;
    put_numbered(out, b") sys sort i", number)?;
    put_numbered(out, b" > o", number)
}

fn put_added(out: &mut Vec<u8>, number: u64) -> Result<(), NoMemory>
    ensures { OnOk result (out.new.items ≡ out.old.items ++ add_line number) }
{
    put_numbered(out, b"outs += 'o", number)?;
    put(out, b"'")
}

fn put_task_lines(out: &mut Vec<u8>, number: u64) -> Result<(), NoMemory>
    ensures { OnOk result (out.new.items ≡ out.old.items ++ task_lines number) }
{
    put_task(out, number)?;
    put(out, b"\n")?;
    put_added(out, number)?;
    put(out, b"\n")
}

/// The script of so many tasks, each of which sorts a file, and of one that takes what they make.
pub fn make(alloc: Global, number: u32) -> Result<ByteText, NoMemory>
    requires { (1 ≤ number) × (number ≤ 10000) }
    ensures { IfOk result (λ text. text ≡ make_text number) }
{
    let mut out = Vec::new(alloc);
    put(&mut out, b"string[] outs\n")?;
    for i in 0..number {
        put_task_lines(&mut out, u64::from(i))?;
    }
    put(
        &mut out,
        b"task('all' <- outs) sys cat $outs > all\nwait\nprintln \"$outs\"\n",
    )?;
    Ok(Listed::from_vec(out))
}
