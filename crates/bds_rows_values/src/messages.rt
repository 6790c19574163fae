//! Worked rows of what people read of a fault.
use bds_host::{Fault, RunFault, message};
use bds_value::{ByteText, Listed, NoMemory};
use std::alloc::Global;
use std::process::Abort;
use std::test::Fail;

fn text(alloc: Global, text: &str) -> Result<ByteText, NoMemory> {
    Ok(Listed::from_vec(Vec::from_slice(alloc, text.as_bytes())?))
}

/// The message of a fault, which ends here.
fn said(alloc: Global, fault: Fault) -> Result<ByteText, NoMemory> {
    message(alloc, &fault)
}

fn says(rt: &impl Abort, alloc: Global, fault: Fault, line: &str) -> Result<(), NoMemory> {
    let made = said(alloc, fault)?;
    assert!(rt; made.as_slice() == line.as_bytes());
    Ok(())
}

/// A fault of a path alone, by its word.
#[derive(Clone, Copy)]
enum OfFile {
    Missing,
    TooLong,
    IncludeTooDeep,
    TooBig,
    NotLoadable,
}

fn fault_of_file(word: OfFile, path: ByteText) -> Fault {
    match word {
        OfFile::Missing => Fault::Missing(path),
        OfFile::TooLong => Fault::TooLong(path),
        OfFile::IncludeTooDeep => Fault::IncludeTooDeep(path),
        OfFile::TooBig => Fault::TooBig(path),
        OfFile::NotLoadable => Fault::NotLoadable(path),
    }
}

const OF_FILES: [(OfFile, &str, &str); 5] = [
    (OfFile::Missing, "s.bds", "bds: s.bds: missing\n"),
    (OfFile::TooLong, "s", "bds: s: too long\n"),
    (OfFile::IncludeTooDeep, "s", "bds: s: includes too deep\n"),
    (OfFile::TooBig, "s", "bds: s: unit too large\n"),
    (OfFile::NotLoadable, "c", "bds: c: not loadable\n"),
];

#[test]
fn files_have_messages(rt: HostRuntime) -> Result<(), Fail> {
    let alloc = rt.alloc();
    for (word, path, line) in &OF_FILES {
        says(&rt, alloc, fault_of_file(*word, text(alloc, path)?), line)?;
    }
    Ok(())
}

/// A fault at a line of a file, by its word.
#[derive(Clone, Copy)]
enum OfLine {
    OpenText,
    OpenComment,
    BadByte(u8),
    BigNumber,
    BadEscape(u8),
    Syntax,
}

fn fault_of_line(word: OfLine, path: ByteText, line: u32) -> Fault {
    match word {
        OfLine::OpenText => Fault::OpenText(path, line),
        OfLine::OpenComment => Fault::OpenComment(path, line),
        OfLine::BadByte(byte) => Fault::BadByte(path, line, byte),
        OfLine::BigNumber => Fault::BigNumber(path, line),
        OfLine::BadEscape(byte) => Fault::BadEscape(path, line, byte),
        OfLine::Syntax => Fault::Syntax(path, line),
    }
}

const OF_LINES: [(OfLine, u32, &str); 6] = [
    (OfLine::OpenText, 1, "bds: s:1: open text\n"),
    (OfLine::OpenComment, 20, "bds: s:20: open comment\n"),
    (OfLine::BadByte(239), 1, "bds: s:1: bad byte 239\n"),
    (
        OfLine::BigNumber,
        4294967295,
        "bds: s:4294967295: big number\n",
    ),
    (OfLine::BadEscape(0), 1, "bds: s:1: bad escape 0\n"),
    (OfLine::Syntax, 7, "bds: s:7: syntax\n"),
];

#[test]
fn lines_have_messages(rt: HostRuntime) -> Result<(), Fail> {
    let alloc = rt.alloc();
    for (word, at, line) in &OF_LINES {
        let fault = fault_of_line(*word, text(alloc, "s")?, *at);
        says(&rt, alloc, fault, line)?;
    }
    Ok(())
}

/// A fault of a path and a second text, by its word.
#[derive(Clone, Copy)]
enum OfTwo {
    Broken,
    NoVariable,
    BadValue,
}

fn fault_of_two(word: OfTwo, path: ByteText, second: ByteText) -> Fault {
    match word {
        OfTwo::Broken => Fault::Broken {
            path,
            line: 201,
            rule: second,
        },
        OfTwo::NoVariable => Fault::NoVariable(path, second),
        OfTwo::BadValue => Fault::BadValue(path, second),
    }
}

fn two_texts(alloc: Global, word: OfTwo, path: ByteText, second: &str) -> Result<Fault, NoMemory> {
    Ok(fault_of_two(word, path, text(alloc, second)?))
}

const OF_TWO: [(OfTwo, &str, &str); 3] = [
    (OfTwo::Broken, "DeepType", "bds: s:201: DeepType\n"),
    (OfTwo::NoVariable, "n", "bds: s: no variable n\n"),
    (OfTwo::BadValue, "n", "bds: s: bad value for n\n"),
];

#[test]
fn second_texts_have_messages(rt: HostRuntime) -> Result<(), Fail> {
    let alloc = rt.alloc();
    for (word, second, line) in &OF_TWO {
        let fault = two_texts(alloc, *word, text(alloc, "s")?, second)?;
        says(&rt, alloc, fault, line)?;
    }
    Ok(())
}

#[test]
fn ends_have_messages(rt: HostRuntime) -> Result<(), Fail> {
    let alloc = rt.alloc();
    says(&rt, alloc, Fault::Words, "bds: words not understood\n")?;
    says(&rt, alloc, Fault::Device, "bds: device fault\n")?;
    let failed = Fault::TaskFailed(2, 255);
    says(&rt, alloc, failed, "bds: task.2 failed with code 255\n")?;
    says(&rt, alloc, Fault::Deadlock, "bds: deadlock\n")?;
    Ok(())
}

fn in_run(path: ByteText, fault: RunFault) -> Fault {
    Fault::Run {
        path,
        line: 3,
        fault,
    }
}

/// A fault of a run without a text, by its word.
#[derive(Clone, Copy)]
enum OfRun {
    ZeroDivisor,
    NoIndex(i64, u64),
    TooLong(u64),
    CallsTooDeep,
    SysFailed(u8),
    TooManyThreads,
    TooManyTasks,
    TooManyRules,
    BadOption(i64),
}

fn fault_of_run(word: OfRun) -> RunFault {
    match word {
        OfRun::ZeroDivisor => RunFault::ZeroDivisor,
        OfRun::NoIndex(index, count) => RunFault::NoIndex(index, count),
        OfRun::TooLong(needed) => RunFault::TooLong(needed),
        OfRun::CallsTooDeep => RunFault::CallsTooDeep,
        OfRun::SysFailed(code) => RunFault::SysFailed(code),
        OfRun::TooManyThreads => RunFault::TooManyThreads,
        OfRun::TooManyTasks => RunFault::TooManyTasks,
        OfRun::TooManyRules => RunFault::TooManyRules,
        OfRun::BadOption(n) => RunFault::BadOption(n),
    }
}

const OF_RUNS: [(OfRun, &str); 9] = [
    (OfRun::ZeroDivisor, "bds: s:3: zero divisor\n"),
    (OfRun::NoIndex(-1, 4), "bds: s:3: no index -1 in 4\n"),
    (OfRun::TooLong(16777217), "bds: s:3: too long: 16777217\n"),
    (OfRun::CallsTooDeep, "bds: s:3: calls too deep\n"),
    (OfRun::SysFailed(3), "bds: s:3: sys failed with code 3\n"),
    (OfRun::TooManyThreads, "bds: s:3: too many threads\n"),
    (OfRun::TooManyTasks, "bds: s:3: too many tasks\n"),
    (OfRun::TooManyRules, "bds: s:3: too many rules\n"),
    (OfRun::BadOption(-2), "bds: s:3: bad option -2\n"),
];

#[test]
fn runs_have_messages(rt: HostRuntime) -> Result<(), Fail> {
    let alloc = rt.alloc();
    for (word, line) in &OF_RUNS {
        let path = text(alloc, "s")?;
        says(&rt, alloc, in_run(path, fault_of_run(*word)), line)?;
    }
    Ok(())
}

/// A fault of a run with a text, by its word.
#[derive(Clone, Copy)]
enum OfText {
    NoKey,
    NotANumber,
    NoFile,
    Error,
    NoId,
    TwoRules,
    NoRule,
}

fn fault_of_text(word: OfText, text: ByteText) -> RunFault {
    match word {
        OfText::NoKey => RunFault::NoKey(text),
        OfText::NotANumber => RunFault::NotANumber(text),
        OfText::NoFile => RunFault::NoFile(text),
        OfText::Error => RunFault::Error(text),
        OfText::NoId => RunFault::NoId(text),
        OfText::TwoRules => RunFault::TwoRules(text, 1),
        OfText::NoRule => RunFault::NoRule(text),
    }
}

/// A fault whose path is left out.
fn text_in_run(alloc: Global, word: OfText, named: ByteText) -> Fault {
    in_run(Listed::new(alloc), fault_of_text(word, named))
}

const OF_TEXTS: [(OfText, &str, &str); 7] = [
    (OfText::NoKey, "k", "bds: :3: no key k\n"),
    (OfText::NotANumber, "x", "bds: :3: not a number: x\n"),
    (OfText::NoFile, "f", "bds: :3: no file f\n"),
    (OfText::Error, "no", "bds: :3: error: no\n"),
    (OfText::NoId, "task.9", "bds: :3: no id task.9\n"),
    (OfText::TwoRules, "f", "bds: :3: rule 1 makes f\n"),
    (OfText::NoRule, "f", "bds: :3: no rule makes f\n"),
];

#[test]
fn texts_in_runs_have_messages(rt: HostRuntime) -> Result<(), Fail> {
    let alloc = rt.alloc();
    for (word, named, line) in &OF_TEXTS {
        let fault = text_in_run(alloc, *word, text(alloc, named)?);
        says(&rt, alloc, fault, line)?;
    }
    Ok(())
}

fn cycle_in_run(alloc: Global) -> Result<Fault, NoMemory> {
    let rules = Listed::from_vec(Vec::from_slice(alloc, &[1, 2])?);
    Ok(in_run(Listed::new(alloc), RunFault::Cycle(rules)))
}

#[test]
fn cycles_have_messages(rt: HostRuntime) -> Result<(), Fail> {
    let alloc = rt.alloc();
    says(
        &rt,
        alloc,
        cycle_in_run(alloc)?,
        "bds: :3: cycle of rules\n",
    )?;
    Ok(())
}
