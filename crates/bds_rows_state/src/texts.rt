//! What is told of a state, of a run and of a number.
ghost use Rattle.std.specs.Prelude.{◌≤◌};

use crate::checkpoints::{BUSY, SAVED, beginning};
use bds_ckpt::load;
use bds_host::{Ask, Host};
use bds_state::State;
use bds_tools::{Made, info, make, summary};
use bds_value::{ByteText, Listed, NoMemory, Numbers};
use std::alloc::Global;
use std::test::Fail;

/// The bytes of the file up to a place, and what stands behind them.
const STATES: [(usize, &[u8], &[u8]); 2] = [
    (
        177,
        &[],
        b"script h\nfunctions 1\ninstructions 6\nthreads 1\ntasks 0\nended well 0\nrules 0\n",
    ),
    (
        118,
        &BUSY,
        b"script h\nfunctions 1\ninstructions 6\nthreads 3\ntasks 2\nended well 0\nrules 1\n",
    ),
];

fn is_told(alloc: Global, state: &State, wanted: &[u8]) -> Result<bool, NoMemory> {
    let told = info(alloc, state)?;
    Ok(told.as_slice() == wanted)
}

/// Whether these bytes hold a state of which this is told.
fn hold(alloc: Global, bytes: ByteText, wanted: &[u8]) -> Result<bool, NoMemory> {
    match load(alloc, bytes) {
        Ok(state) => is_told(alloc, &state, wanted),
        Err(_) => Ok(false),
    }
}

#[test]
fn states_are_told(rt: HostRuntime) -> Result<(), Fail> {
    for (end, behind, wanted) in &STATES {
        let bytes = beginning(rt.alloc(), *end, behind)?;
        let told = hold(rt.alloc(), Listed::from_vec(bytes), wanted)?;
        assert!(rt; told);
    }
    Ok(())
}

/// The script of one task.
const ONE: &[u8] = b"string[] outs
task('o0' <- 'i0', cpus := 1) sys sort i0 > o0
outs += 'o0'
task('all' <- outs) sys cat $outs > all
wait
println \"$outs\"
";

/// The third task of the script of three, and what stands behind it.
const THIRD: &[u8] = b"
task('o2' <- 'i2', cpus := 3) sys sort i2 > o2
outs += 'o2'
task('all' <- outs) sys cat $outs > all
wait
println \"$outs\"
";

fn ends_so(alloc: Global, number: u32, end: &[u8]) -> Result<bool, NoMemory>
    requires { (1 ≤ number) × (number ≤ 10000) }
{
    let text = make(alloc, number)?;
    Ok(text.as_slice().ends_with(end))
}

fn is_made(alloc: Global, number: u32, wanted: &[u8]) -> Result<bool, NoMemory>
    requires { (1 ≤ number) × (number ≤ 10000) }
{
    let text = make(alloc, number)?;
    Ok(text.as_slice() == wanted)
}

#[test]
fn scripts_are_made(rt: HostRuntime) -> Result<(), Fail> {
    let made = is_made(rt.alloc(), 1, ONE)?;
    assert!(rt; made);
    let ends = ends_so(rt.alloc(), 3, THIRD)?;
    assert!(rt; ends);
    Ok(())
}

fn letter(alloc: Global) -> Result<ByteText, NoMemory> {
    Ok(Listed::from_vec(Vec::from_slice(alloc, b"f")?))
}

fn numbers(alloc: Global, items: &[u32]) -> Result<Numbers, NoMemory> {
    Ok(Listed::from_vec(Vec::from_slice(alloc, items)?))
}

/// Asks of a host for a script, a file twice, a task, and what comes next.
fn ask_some<H: Host>(alloc: Global, host: &mut H) -> Result<(), NoMemory> {
    host.ask(alloc, Ask::Read(letter(alloc)?))?;
    host.ask(alloc, Ask::Stamp(letter(alloc)?))?;
    host.ask(alloc, Ask::Stamp(letter(alloc)?))?;
    host.ask(
        alloc,
        Ask::Start {
            task: 1,
            attempt: 0,
            cmd: letter(alloc)?,
        },
    )?;
    host.ask(
        alloc,
        Ask::Next {
            ready: Listed::new(alloc),
            running: numbers(alloc, &[1])?,
        },
    )?;
    Ok(())
}

/// The line on what was asked of the outside of a made run.
fn told_of_run(alloc: Global) -> Result<ByteText, NoMemory> {
    let mut host = Made::new(alloc, 1);
    ask_some(alloc, &mut host)?;
    summary(alloc, host.trace(), 3)
}

#[test]
fn runs_are_told(rt: HostRuntime) -> Result<(), Fail> {
    let told = told_of_run(rt.alloc())?;
    let same = told.as_slice() == b"stamps 2 starts 1 nexts 1 status 3\n".as_slice();
    assert!(rt; same);
    Ok(())
}
