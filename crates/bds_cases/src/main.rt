//! Reads cases of the top call from standard input, and prints what each asks and answers.
#![tactic(auto)]

mod case;
mod item;
mod line;
mod telling;

use bds_value::{Listed, NoMemory, Texts};
use case::{Case, Told};
use item::LineFault;
use line::{Line, read_line};
use std::alloc::Global;
use std::io::{BufRead, BufReader, ErrorKind};
use std::process::ExitCode;
use std::{io, mem};

/// Why not all cases are run.
enum CaseFault {
    /// The line of this number can't be read.
    Line(u64),
    /// Standard input or output failed.
    Device,
    NoMemory,
}

impl From<NoMemory> for CaseFault {
    fn from(_: NoMemory) -> Self {
        CaseFault::NoMemory
    }
}

impl From<io::Error> for CaseFault {
    fn from(error: io::Error) -> Self {
        if error.kind() == ErrorKind::OutOfMemory {
            CaseFault::NoMemory
        } else {
            CaseFault::Device
        }
    }
}

/// What stops the cases at a line.
fn at_line(number: u64, unread: LineFault) -> CaseFault {
    match unread {
        LineFault::Form => CaseFault::Line(number),
        LineFault::NoMemory => CaseFault::NoMemory,
    }
}

/// Runs a case, if there is one, and prints what it tells. It gives what was saved.
fn run(rt: &impl Print, alloc: Global, case: Option<Case>) -> Result<Texts, CaseFault> {
    match case {
        Some(case) => {
            let Told { text, saved } = case.told(alloc)?;
            rt.write_all(text.as_slice())?;
            Ok(saved)
        }
        None => Ok(Listed::new(alloc)),
    }
}

/// Adds a line to its case.
fn add(alloc: Global, case: &mut Option<Case>, line: Line) -> Result<(), LineFault> {
    match case {
        Some(case) => case.add(alloc, line),
        None => match line {
            Line::Nothing => Ok(()),
            _ => Err(LineFault::Form),
        },
    }
}

/// Takes a line: it begins a case, so that the one before is run, or is added to its case.
fn take(
    rt: &impl Print,
    alloc: Global,
    case: &mut Option<Case>,
    number: u64,
    text: &[u8],
) -> Result<(), CaseFault> {
    match read_line(alloc, text) {
        Ok(Line::Case(name)) => {
            let before = mem::replace(case, None);
            let saved = run(rt, alloc, before)?;
            *case = Some(Case::new(alloc, name, saved));
            Ok(())
        }
        Ok(line) => add(alloc, case, line).map_err(|unread| at_line(number, unread)),
        Err(unread) => Err(at_line(number, unread)),
    }
}

/// Runs all cases of standard input.
fn run_all(rt: &HostRuntime) -> Result<(), CaseFault> {
    let alloc = rt.alloc();
    let mut case = None;
    let mut number: u64 = 0;
    for text in BufReader::new(alloc, rt.reader())?.lines(alloc) {
        number = number.saturating_add(1);
        match text {
            Ok(text) => take(rt, alloc, &mut case, number, text.as_bytes())?,
            Err(error) if error.kind() == ErrorKind::InvalidData => {
                return Err(CaseFault::Line(number));
            }
            Err(error) => return Err(CaseFault::from(error)),
        }
    }
    let _saved = run(rt, alloc, case)?;
    Ok(())
}

/// The exit status.
fn main(rt: HostRuntime) -> ExitCode {
    match run_all(&rt) {
        Ok(()) => ExitCode::from(0),
        Err(CaseFault::Line(number)) => {
            let _told = eprintln!(rt; "bds_cases: line {number} can't be read");
            ExitCode::from(2)
        }
        Err(CaseFault::Device) => ExitCode::from(3),
        Err(CaseFault::NoMemory) => ExitCode::from(4),
    }
}
