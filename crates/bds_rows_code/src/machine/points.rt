//! What a point is and holds, in words.
use bds_host::{Ask, Fault, RunFault, message};
use bds_machine::Point;
use bds_rules::Rule;
use bds_tasks::TaskNew;
use bds_value::{ByteText, Items, Listed, NoMemory, Texts, Value, put, text_of};
use std::alloc::Global;
use std::test::Fail;

/// A value behind a space.
fn put_value(alloc: Global, out: &mut Vec<u8>, value: &Value) -> Result<(), Fail> {
    let text = text_of(alloc, value)?;
    put_part(out, &text)?;
    Ok(())
}

/// A text behind a space.
fn put_part(out: &mut Vec<u8>, text: &ByteText) -> Result<(), NoMemory> {
    put(out, b" ")?;
    put(out, text.as_slice())
}

fn put_parts(out: &mut Vec<u8>, texts: &Texts) -> Result<(), NoMemory> {
    for text in texts.as_slice() {
        put_part(out, text)?;
    }
    Ok(())
}

fn tell_ask(out: &mut Vec<u8>, ask: &Ask) -> Result<(), NoMemory> {
    let (name, text) = match ask {
        Ask::Read(path) => (b"read".as_slice(), path),
        Ask::Stamp(path) => (b"stamp".as_slice(), path),
        Ask::Remove(path) => (b"remove".as_slice(), path),
        Ask::Out(text) => (b"out".as_slice(), text),
        Ask::Sys(command) => (b"sys".as_slice(), command),
        Ask::Write { path, text } => {
            put(out, b"write")?;
            put_part(out, path)?;
            return put_part(out, text);
        }
        _ => return put(out, b"another ask"),
    };
    put(out, name)?;
    put_part(out, text)
}

fn tell_task(alloc: Global, out: &mut Vec<u8>, task: &TaskNew) -> Result<(), Fail> {
    put(out, b"task")?;
    put_parts(out, &task.outs)?;
    put_parts(out, &task.ins)?;
    put_value(alloc, out, &Value::Int(task.cpus as i64))?;
    put_value(alloc, out, &Value::Bool(task.can_fail))?;
    put_value(alloc, out, &Value::Int(task.retry as i64))?;
    put_part(out, &task.name)?;
    put_part(out, &task.command)?;
    Ok(())
}

fn tell_rule(alloc: Global, out: &mut Vec<u8>, rule: &Rule) -> Result<(), Fail> {
    put(out, b"rule")?;
    put_parts(out, &rule.outs)?;
    put_parts(out, &rule.ins)?;
    put_value(alloc, out, &Value::Int(rule.cpus as i64))?;
    put_value(alloc, out, &Value::Bool(rule.can_fail))?;
    put_value(alloc, out, &Value::Int(rule.retry as i64))?;
    put_part(out, &rule.name)?;
    put_part(out, &rule.command)?;
    Ok(())
}

fn tell_fault(alloc: Global, out: &mut Vec<u8>, fault: RunFault, line: u32) -> Result<(), Fail> {
    let path = Listed::new(alloc);
    let text = message(alloc, &Fault::Run { path, line, fault })?;
    put(out, text.as_slice())?;
    Ok(())
}

fn tell_wait(out: &mut Vec<u8>, name: &[u8], texts: &Texts) -> Result<(), NoMemory> {
    put(out, name)?;
    put_parts(out, texts)
}

fn tell_old(out: &mut Vec<u8>, outs: &Texts, ins: &Texts) -> Result<(), NoMemory> {
    put(out, b"old")?;
    put_parts(out, outs)?;
    put(out, b" of")?;
    put_parts(out, ins)
}

fn tell_spawn(
    alloc: Global,
    out: &mut Vec<u8>,
    function: u32,
    arguments: &Items,
) -> Result<(), Fail> {
    put(out, b"spawn")?;
    put_value(alloc, out, &Value::Int(function as i64))?;
    for argument in arguments.as_slice() {
        put_value(alloc, out, argument)?;
    }
    Ok(())
}

fn tell_save(out: &mut Vec<u8>, path: &Option<ByteText>) -> Result<(), NoMemory> {
    put(out, b"save")?;
    match path {
        Some(path) => put_part(out, path),
        None => put(out, b" here"),
    }
}

fn tell_exit(alloc: Global, out: &mut Vec<u8>, code: u8) -> Result<(), Fail> {
    put(out, b"exit")?;
    put_value(alloc, out, &Value::Int(code as i64))
}

/// Says of a point what it is and holds.
pub(super) fn tell(alloc: Global, out: &mut Vec<u8>, point: Point) -> Result<(), Fail> {
    match point {
        Point::Asks(ask) => tell_ask(out, &ask)?,
        Point::Old(outs, ins) => tell_old(out, &outs, &ins)?,
        Point::Task(task) => tell_task(alloc, out, &task)?,
        Point::Declare(rule) => tell_rule(alloc, out, &rule)?,
        Point::Goal(files) => tell_wait(out, b"goal", &files)?,
        Point::Spawn(function, arguments) => tell_spawn(alloc, out, function, &arguments)?,
        Point::Wait(ids) => tell_wait(out, b"wait", &ids)?,
        Point::WaitAll => put(out, b"wait all")?,
        Point::Save(path) => tell_save(out, &path)?,
        Point::Exit(code) => tell_exit(alloc, out, code)?,
        Point::Stop(fault, at) => tell_fault(alloc, out, fault, at.line)?,
        Point::Finished => put(out, b"finished")?,
        Point::Spent => put(out, b"spent")?,
    }
    Ok(())
}
