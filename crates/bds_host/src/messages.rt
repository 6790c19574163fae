//! The messages for people.
ghost use Rattle.std.specs.Prelude.{◌≡◌, ◌++◌, OnOk, IfOk, codes, decimal};
ghost use Rattle.std.specs.Fmt.{signed_decimal};
ghost use Rattle.bds_host.specs.Message.{at_path, at_line, with_code, run_text, fault_text, message_of};

use crate::{Fault, RunFault};
use bds_value::{ByteText, Listed, NoMemory, put};
use itoa::Buffer;
use std::alloc::Global;

fn put_number(out: &mut Vec<u8>, number: u64) -> Result<(), NoMemory>
    ensures { OnOk result (out.new.items ≡ out.old.items ++ decimal number) }
{
    let mut buffer = Buffer::new();
    put(out, buffer.format(number).as_bytes())
}

fn put_signed(out: &mut Vec<u8>, number: i64) -> Result<(), NoMemory>
    ensures { OnOk result (out.new.items ≡ out.old.items ++ signed_decimal number) }
{
    let mut buffer = Buffer::new();
    put(out, buffer.format(number).as_bytes())
}

/// Words and a text behind them.
fn put_with_text(out: &mut Vec<u8>, words: &[u8], text: &ByteText) -> Result<(), NoMemory>
    ensures { OnOk result (out.new.items ≡ out.old.items ++ (words.now ++ text.now)) }
{
    put(out, words)?;
    put(out, text.as_slice())
}

/// Words and a number behind them.
fn put_with_number(out: &mut Vec<u8>, words: &[u8], number: u64) -> Result<(), NoMemory>
    ensures { OnOk result (out.new.items ≡ out.old.items ++ (words.now ++ decimal number)) }
{
    put(out, words)?;
    put_number(out, number)
}

fn put_no_index(out: &mut Vec<u8>, index: i64, count: u64) -> Result<(), NoMemory>
    ensures { OnOk result (out.new.items ≡ out.old.items
        ++ (codes "no index " ++ signed_decimal index ++ codes " in " ++ decimal count)) }
{
    put(out, b"no index ")?;
    put_signed(out, index)?;
    put_with_number(out, b" in ", count)
}

fn put_bad_option(out: &mut Vec<u8>, number: i64) -> Result<(), NoMemory>
    ensures { OnOk result (out.new.items ≡ out.old.items ++ (codes "bad option " ++ signed_decimal number)) }
{
    put(out, b"bad option ")?;
    put_signed(out, number)
}

fn put_two_rules(out: &mut Vec<u8>, file: &ByteText, rule: u32) -> Result<(), NoMemory>
    ensures { OnOk result (out.new.items ≡ out.old.items
        ++ (codes "rule " ++ decimal rule ++ codes " makes " ++ file.now)) }
{
    put_with_number(out, b"rule ", u64::from(rule))?;
    put_with_text(out, b" makes ", file)
}

fn put_with_code(out: &mut Vec<u8>, code: u8) -> Result<(), NoMemory>
    ensures { OnOk result (out.new.items ≡ out.old.items ++ with_code code) }
{
    put_with_number(out, b" failed with code ", u64::from(code))
}

fn put_task_failed(out: &mut Vec<u8>, task: u32, code: u8) -> Result<(), NoMemory>
    ensures { OnOk result (out.new.items ≡ out.old.items
        ++ (codes "task." ++ decimal task ++ with_code code)) }
{
    put_with_number(out, b"task.", u64::from(task))?;
    put_with_code(out, code)
}

fn put_sys_failed(out: &mut Vec<u8>, code: u8) -> Result<(), NoMemory>
    ensures { OnOk result (out.new.items ≡ out.old.items ++ (codes "sys" ++ with_code code)) }
{
    put(out, b"sys")?;
    put_with_code(out, code)
}

fn put_run_fault(out: &mut Vec<u8>, fault: &RunFault) -> Result<(), NoMemory>
    ensures { OnOk result (out.new.items ≡ out.old.items ++ run_text fault.now) }
{
    match fault {
        RunFault::ZeroDivisor => put(out, b"zero divisor"),
        RunFault::NoIndex(index, count) => put_no_index(out, *index, *count),
        RunFault::NoKey(key) => put_with_text(out, b"no key ", key),
        RunFault::TooLong(count) => put_with_number(out, b"too long: ", *count),
        RunFault::NotANumber(text) => put_with_text(out, b"not a number: ", text),
        RunFault::CallsTooDeep => put(out, b"calls too deep"),
        RunFault::TooManyThreads => put(out, b"too many threads"),
        RunFault::TooManyTasks => put(out, b"too many tasks"),
        RunFault::TooManyRules => put(out, b"too many rules"),
        RunFault::NoFile(path) => put_with_text(out, b"no file ", path),
        RunFault::SysFailed(code) => put_sys_failed(out, *code),
        RunFault::NoId(text) => put_with_text(out, b"no id ", text),
        RunFault::BadOption(number) => put_bad_option(out, *number),
        RunFault::TwoRules(file, rule) => put_two_rules(out, file, *rule),
        RunFault::Cycle(_) => put(out, b"cycle of rules"),
        RunFault::NoRule(file) => put_with_text(out, b"no rule makes ", file),
        RunFault::Error(text) => put_with_text(out, b"error: ", text),
    }
}

/// A path, and words behind it.
fn put_at_path(out: &mut Vec<u8>, path: &ByteText, words: &[u8]) -> Result<(), NoMemory>
    ensures { OnOk result (out.new.items ≡ out.old.items ++ at_path path.now words.now) }
{
    put(out, path.as_slice())?;
    put(out, b": ")?;
    put(out, words)
}

/// A path, and a variable's name behind words.
fn put_variable(
    out: &mut Vec<u8>,
    path: &ByteText,
    words: &[u8],
    name: &ByteText,
) -> Result<(), NoMemory>
    ensures { OnOk result (out.new.items ≡ out.old.items ++ at_path path.now (words.now ++ name.now)) }
{
    put_at_path(out, path, words)?;
    put(out, name.as_slice())
}

/// A path and a line, and words behind them.
fn put_at_line(out: &mut Vec<u8>, path: &ByteText, line: u32, words: &[u8]) -> Result<(), NoMemory>
    ensures { OnOk result (out.new.items ≡ out.old.items ++ at_line path.now line words.now) }
{
    put(out, path.as_slice())?;
    put_with_number(out, b":", u64::from(line))?;
    put(out, b": ")?;
    put(out, words)
}

/// A path and a line, and a byte behind words.
fn put_byte(
    out: &mut Vec<u8>,
    path: &ByteText,
    line: u32,
    words: &[u8],
    byte: u8,
) -> Result<(), NoMemory>
    ensures { OnOk result (out.new.items ≡ out.old.items ++ at_line path.now line (words.now ++ decimal byte)) }
{
    put_at_line(out, path, line, words)?;
    put_number(out, u64::from(byte))
}

fn put_run(out: &mut Vec<u8>, path: &ByteText, line: u32, fault: &RunFault) -> Result<(), NoMemory>
    ensures { OnOk result (out.new.items ≡ out.old.items ++ at_line path.now line (run_text fault.now)) }
{
    put_at_line(out, path, line, b"")?;
    put_run_fault(out, fault)
}

fn put_fault(out: &mut Vec<u8>, fault: &Fault) -> Result<(), NoMemory>
    ensures { OnOk result (out.new.items ≡ out.old.items ++ fault_text fault.now) }
{
    match fault {
        Fault::Words => put(out, b"words not understood"),
        Fault::Device => put(out, b"device fault"),
        Fault::Missing(path) => put_at_path(out, path, b"missing"),
        Fault::TooLong(path) => put_at_path(out, path, b"too long"),
        Fault::IncludeTooDeep(path) => put_at_path(out, path, b"includes too deep"),
        Fault::TooBig(path) => put_at_path(out, path, b"unit too large"),
        Fault::OpenText(path, line) => put_at_line(out, path, *line, b"open text"),
        Fault::OpenComment(path, line) => put_at_line(out, path, *line, b"open comment"),
        Fault::BadByte(path, line, byte) => put_byte(out, path, *line, b"bad byte ", *byte),
        Fault::BigNumber(path, line) => put_at_line(out, path, *line, b"big number"),
        Fault::BadEscape(path, line, byte) => put_byte(out, path, *line, b"bad escape ", *byte),
        Fault::Syntax(path, line) => put_at_line(out, path, *line, b"syntax"),
        Fault::Broken { path, line, rule } => put_at_line(out, path, *line, rule.as_slice()),
        Fault::NoVariable(path, name) => put_variable(out, path, b"no variable ", name),
        Fault::BadValue(path, name) => put_variable(out, path, b"bad value for ", name),
        Fault::NotLoadable(path) => put_at_path(out, path, b"not loadable"),
        Fault::TaskFailed(task, code) => put_task_failed(out, *task, *code),
        Fault::Deadlock => put(out, b"deadlock"),
        Fault::Run { path, line, fault } => put_run(out, path, *line, fault),
    }
}

/// The message of a fault: one line, with its end.
pub fn message(alloc: Global, fault: &Fault) -> Result<ByteText, NoMemory>
    ensures { IfOk result (λ text. text ≡ message_of fault.now) }
{
    let mut out = Vec::new(alloc);
    put(&mut out, b"bds: ")?;
    put_fault(&mut out, fault)?;
    put(&mut out, b"\n")?;
    Ok(Listed::from_vec(out))
}

/// The message of a fault, which is let go.
pub fn message_of(alloc: Global, fault: Fault) -> Result<ByteText, NoMemory>
    ensures { IfOk result (λ text. text ≡ message_of fault) }
{
    message(alloc, &fault)
}
