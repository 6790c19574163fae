//! The texts that name an attempt of a task.
ghost use Rattle.std.specs.Prelude.{◌≡◌, ◌++◌, OnOk, IfOk, codes, decimal};
ghost use Rattle.bds_farm.specs.Farm.{file_of as file_text, name_of, submit_text};

use bds_around::{put_number, put_task};
use bds_value::{ByteText, Listed, NoMemory, put};
use std::alloc::Global;

fn put_attempt(out: &mut Vec<u8>, attempt: u32) -> Result<(), NoMemory>
    ensures { OnOk result (out.new.items ≡ out.old.items ++ (codes "." ++ decimal attempt)) }
{
    put(out, b".")?;
    put_number(out, attempt)
}

fn put_name(out: &mut Vec<u8>, task: u32, attempt: u32) -> Result<(), NoMemory>
    ensures { OnOk result (out.new.items ≡ out.old.items ++ name_of task attempt) }
{
    put_task(out, task)?;
    put_attempt(out, attempt)
}

fn put_file(out: &mut Vec<u8>, task: u32, attempt: u32) -> Result<(), NoMemory>
    ensures { OnOk result (out.new.items ≡ out.old.items ++ file_text task attempt) }
{
    put(out, b"bds-")?;
    put_name(out, task, attempt)?;
    put(out, b".sh")
}

/// The file of the command of an attempt.
pub fn file_of(alloc: Global, task: u32, attempt: u32) -> Result<ByteText, NoMemory>
    ensures { IfOk result (λ text. text ≡ file_text task attempt) }
{
    let mut out = Vec::new(alloc);
    put_file(&mut out, task, attempt)?;
    Ok(Listed::from_vec(out))
}

/// The command that submits an attempt.
pub fn submit_text(
    alloc: Global,
    submit: &ByteText,
    task: u32,
    attempt: u32,
) -> Result<ByteText, NoMemory>
    ensures { IfOk result (λ text. text ≡ submit_text submit.now task attempt) }
{
    let mut out = Vec::new(alloc);
    put(&mut out, submit.as_slice())?;
    put(&mut out, b" ")?;
    put_file(&mut out, task, attempt)?;
    put(&mut out, b" ")?;
    put_name(&mut out, task, attempt)?;
    Ok(Listed::from_vec(out))
}
