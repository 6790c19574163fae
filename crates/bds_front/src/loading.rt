//! Loading a script with its includes.

ghost use Rattle.std.specs.Prelude.{◌≡◌, ◌<◌, ◌↔◌, Err, length, IfOk};
ghost use Rattle.bds_host.specs.Host.{faults};
ghost use Rattle.bds_tree.specs.StmtView.{script_of};
ghost use Rattle.bds_check_typing.specs.Proper.{IsProgram};
ghost use Rattle.bds_front.specs.declared.front_fault.FrontFault.TheVariants.{Device};
ghost use Rattle.bds_front.specs.Joining.{BreaksRule, Checks, ChecksAll, UnlessBeyond, program_of};
ghost use Rattle.bds_front.specs.Loading.{Loads};

use crate::front_fault::FrontFault;
use crate::including::{Joined, join_all, nothing_joined};
use crate::read_paths::ReadPaths;
use bds_check::{CheckFault, Rule, Typed, check};
use bds_host::Host;
use bds_tree::{Parts, Script};
use bds_value::{At, ByteText, NoMemory, copy_text};
use std::alloc::Global;

/// How a broken rule is told: with the path of the node's file.
fn broken_fault(alloc: Global, paths: &ReadPaths, rule: Rule, at: At) -> FrontFault
    requires { at.file < length paths.now }
    ensures { BreaksRule paths.now rule at result }
{
    match paths.at(alloc, at.file) {
        Ok(path) => FrontFault::Check(path, CheckFault::Broken { rule, at }),
        Err(_) => FrontFault::NoMemory,
    }
}

/// The program of files.
fn program(alloc: Global, paths: &ReadPaths, at: At, parts: Parts) -> Result<Script, NoMemory>
    ensures { IfOk result (λ s. script_of s ≡ program_of at paths.now parts) }
{
    let files = paths.texts(alloc)?;
    Ok(Script { at, files, parts })
}

/// The program of files with its types.
fn check_program(
    alloc: Global,
    paths: &ReadPaths,
    at: At,
    parts: Parts,
) -> Result<Typed, FrontFault>
    requires { IsProgram (program_of at paths.now parts) }
    ensures { Checks (program_of at paths.now parts) result }
{
    match check(alloc, program(alloc, paths, at, parts)?) {
        Ok(typed) => Ok(typed),
        Err(CheckFault::Broken { rule, at }) => Err(broken_fault(alloc, paths, rule, at)),
        Err(CheckFault::NoMemory) => Err(FrontFault::NoMemory),
    }
}

/// A typed program, unless an include stands beyond the limits.
fn unless_beyond(typed: Typed, beyond: Option<ByteText>) -> Result<Typed, FrontFault>
    ensures { UnlessBeyond typed beyond result }
{
    match beyond {
        Some(path) => Err(FrontFault::IncludeTooDeep(path)),
        None => Ok(typed),
    }
}

/// The typed program of joined files.
fn check_joined(alloc: Global, joined: Joined, at: At) -> Result<Typed, FrontFault>
    requires { IsProgram (program_of at joined.paths joined.parts) }
    ensures { ChecksAll (program_of at joined.paths joined.parts) joined.beyond result }
{
    let Joined {
        paths,
        parts,
        beyond,
    } = joined;
    let typed = check_program(alloc, &paths, at, parts)?;
    unless_beyond(typed, beyond)
}

/// Reads a script with its includes, and checks the program that they make.
fn load_files<H: Host>(alloc: Global, host: &mut H, path: &ByteText) -> Result<Typed, FrontFault>
    ensures { Loads path.now (H.log host.old) (H.log host.new) result }
{
    let mut joined = nothing_joined(alloc);
    let at = join_all(alloc, host, &mut joined, copy_text(alloc, path)?)?;
    check_joined(alloc, joined, at)
}

/// Reads a script with its includes, and checks the program that they make. Each path is read once, in the
/// order of the text, all includes below one include before the next one of the same file. `loads` says what
/// is read, and what stands behind each answer; `device` that a fault of the outside has its answer, and no
/// other thing has that answer.
pub fn load<H: Host>(alloc: Global, host: &mut H, path: &ByteText) -> Result<Typed, FrontFault>
    ensures loads { Loads path.now (H.log host.old) (H.log host.new) result }
    ensures device { (faults (H.log host.old) < faults (H.log host.new)) ↔ (result ≡ Err Device) }
{
    load_files(alloc, host, path)
}
