//! Tasks, with the real shell.
use super::asking::{AskKind, DONE, FAULT, next, start, told};
use crate::LocalHost;
use bds_host::Host;
use bds_value::NoMemory;
use std::alloc::Global;
use std::test::Fail;

const FIRST: &[u8] =
    b"echo x > a; n=0; until test -e b; do ls > /dev/null; n=$((n+1)); test $n -lt 5000 || exit 1; done";

const SECOND: &[u8] =
    b"echo x > b; n=0; until test -e a; do ls > /dev/null; n=$((n+1)); test $n -lt 5000 || exit 1; done";

/// Whether two tasks start, and both end well.
fn both_end<H: Host>(alloc: Global, host: &mut H) -> Result<bool, NoMemory> {
    let first = start(alloc, host, 9001, FIRST)?;
    let second = start(alloc, host, 9002, SECOND)?;
    let end = next(alloc, host, &[], &[9001, 9002])?;
    let other_end = next(alloc, host, &[], &[9001, 9002])?;
    let started = first.as_slice() == DONE && second.as_slice() == DONE;
    Ok(started && end.as_slice().ends_with(b" 0") && other_end.as_slice().ends_with(b" 0"))
}

/// Each waits for the other's file, so they end only if they run beside each other.
#[test]
fn two_tasks_run_beside_each_other(rt: HostRuntime) -> Result<(), Fail> {
    let a = rt.alloc();
    let mut host = LocalHost::new(&rt, a);
    assert!(rt; both_end(a, &mut host)?);
    let files = told(a, &mut host, AskKind::Sys, b"cat a b; rm -r a b .bds", b"")?;
    assert!(rt; files.as_slice() == b"0 x\nx\n".as_slice());
    Ok(())
}

/// The command of a task, and what its end tells: a byte that is no text stays, its output goes to its files, it reads nothing, and a signal has the shell's code.
const ENDS: [(u32, &[u8], &[u8]); 5] = [
    (9010, b"test \"$(printf '\\377')\" = \xff", b"9010 0"),
    (9011, b"exit 9", b"9011 9"),
    (
        9012,
        b"echo o; echo e >&2; cat; false; echo more",
        b"9012 1",
    ),
    (9013, b"kill -9 $$", b"9013 137"),
    (9014, b"echo 9014 7 >&3", b"9014 2"),
];

/// Whether a task starts, and the next end tells so.
fn ends_so<H: Host>(
    alloc: Global,
    host: &mut H,
    task: u32,
    command: &[u8],
    want: &[u8],
) -> Result<bool, NoMemory> {
    let started = start(alloc, host, task, command)?;
    let end = next(alloc, host, &[], &[task])?;
    Ok(started.as_slice() == DONE && end.as_slice() == want)
}

/// Whether a long command runs, also where its end is asked for behind it.
fn long_ends<H: Host>(alloc: Global, host: &mut H) -> Result<bool, NoMemory> {
    let mut long = vec![in alloc; b'#'; 100_000]?;
    long.extend_from_slice(b"\nexit 5")?;
    let started = start(alloc, host, 9015, long.as_slice())?;
    told(alloc, host, AskKind::Sys, b"sleep 0.3", b"")?;
    let end = next(alloc, host, &[], &[9015])?;
    Ok(started.as_slice() == DONE && end.as_slice() == b"9015 5".as_slice())
}

/// Whether it is a fault where the files of a task can't be made, and where a task ends that doesn't run.
fn strange_ends<H: Host>(alloc: Global, host: &mut H) -> Result<bool, NoMemory> {
    told(
        alloc,
        host,
        AskKind::Sys,
        b"mkdir .bds/task.9018.0.out",
        b"",
    )?;
    let no_file = start(alloc, host, 9018, b"true")?;
    start(alloc, host, 9016, b"true")?;
    let other = next(alloc, host, &[], &[9017])?;
    told(alloc, host, AskKind::Sys, b"rm -r .bds", b"")?;
    Ok(no_file.as_slice() == FAULT && other.as_slice() == FAULT)
}

/// Whether no task starts where the folder for its files is a file, or a link to a folder.
fn no_folder<H: Host>(alloc: Global, host: &mut H) -> Result<bool, NoMemory> {
    told(alloc, host, AskKind::Write, b".bds", b"")?;
    let at_file = start(alloc, host, 9019, b"true")?;
    told(
        alloc,
        host,
        AskKind::Sys,
        b"rm .bds; mkdir kept; ln -s kept .bds",
        b"",
    )?;
    let at_link = start(alloc, host, 9019, b"true")?;
    let kept = told(alloc, host, AskKind::Sys, b"rm .bds; rmdir kept", b"")?;
    let refused = at_file.as_slice() == FAULT && at_link.as_slice() == FAULT;
    Ok(refused && kept.as_slice() == b"0 ".as_slice())
}

const PRINTED: &[u8] = b"cat .bds/task.9012.0.out .bds/task.9012.0.err";

#[test]
fn the_shell_tells_ends(rt: HostRuntime) -> Result<(), Fail> {
    let a = rt.alloc();
    let mut host = LocalHost::new(&rt, a);
    for (task, command, want) in ENDS {
        assert!(rt; ends_so(a, &mut host, task, command, want)?, "{task}");
    }
    let printed = told(a, &mut host, AskKind::Sys, PRINTED, b"")?;
    assert!(rt; printed.as_slice() == b"0 o\ne\n".as_slice());
    assert!(rt; long_ends(a, &mut host)?);
    assert!(rt; strange_ends(a, &mut host)?);
    assert!(rt; no_folder(a, &mut host)?);
    Ok(())
}

/// Which thread goes on.
const TURNS: [(&[u32], &[u8]); 5] = [
    (&[5, 2], b"2 goes on"),
    (&[5, 2], b"5 goes on"),
    (&[5, 2], b"2 goes on"),
    (&[1], b"1 goes on"),
    (&[3, 9, 0], b"3 goes on"),
];

const KILL: &[u8] = b"read -r a b c p d </proc/$PPID/stat; kill -9 $p; sleep 99";

/// Whether the next end is a fault, and so is a start. It removes what tasks printed. The end of the shell closes its output before its input, but
/// for a moment: a command stands between, which takes longer than that.
fn all_is_a_fault<H: Host>(alloc: Global, host: &mut H) -> Result<bool, NoMemory> {
    let end = next(alloc, host, &[], &[9021])?;
    told(alloc, host, AskKind::Sys, b"rm -r .bds", b"")?;
    let started = start(alloc, host, 9022, b"true")?;
    told(alloc, host, AskKind::Sys, b"rm -r .bds", b"")?;
    Ok(end.as_slice() == FAULT && started.as_slice() == FAULT)
}

/// Whether all is a fault behind a task that kills the shell, whose end nobody tells then.
fn the_shell_ends<H: Host>(alloc: Global, host: &mut H) -> Result<bool, NoMemory> {
    let before = next(alloc, host, &[], &[1])?;
    let started = start(alloc, host, 9021, KILL)?;
    let well = before.as_slice() == FAULT && started.as_slice() == DONE;
    Ok(well && all_is_a_fault(alloc, host)?)
}

#[test]
fn the_end_of_the_shell_is_a_fault(rt: HostRuntime) -> Result<(), Fail> {
    let a = rt.alloc();
    let mut host = LocalHost::new(&rt, a);
    for (ready, want) in TURNS {
        assert!(rt; next(a, &mut host, ready, &[])?.as_slice() == want);
    }
    assert!(rt; the_shell_ends(a, &mut host)?);
    Ok(())
}

/// A task that is at work for a long time, with what it starts, and tells their numbers.
const LONG: &[u8] = b"sleep 99 & echo $$ $! >pids; wait";

/// Waits until they are told.
const BEGUN: &[u8] = b"n=0; until test -s pids; do n=$((n+1)); test $n -lt 99; sleep 0.1; done";

/// Waits until they have ended.
const GONE: &[u8] =
    b"read -r p q <pids; n=0; while kill -0 $p || kill -0 $q; do n=$((n+1)); test $n -lt 99; sleep 0.1; done 2>/dev/null; rm pids";

/// Whether a task begins over a host that is gone behind this call, while no other host starts one in the same folder.
fn begins_alone(
    rt: &HostRuntime,
    other: &mut LocalHost<'_, HostRuntime>,
) -> Result<bool, NoMemory> {
    let alloc = rt.alloc();
    let mut host = LocalHost::new(rt, alloc);
    let started = start(alloc, &mut host, 9024, LONG)?;
    let begun = told(alloc, &mut host, AskKind::Sys, BEGUN, b"")?;
    let refused = start(alloc, other, 9024, b"true")?;
    let well = started.as_slice() == DONE && begun.as_slice() == b"0 ".as_slice();
    Ok(well && refused.as_slice() == FAULT)
}

/// Whether what a task of an earlier host started has ended, and then another host starts one of the same number.
fn ends_with_its_run<H: Host>(alloc: Global, host: &mut H) -> Result<bool, NoMemory> {
    let gone = told(alloc, host, AskKind::Sys, GONE, b"")?;
    let ended = ends_so(alloc, host, 9024, b"exit 3", b"9024 3")?;
    told(alloc, host, AskKind::Sys, b"rm -r .bds", b"")?;
    Ok(ended && gone.as_slice() == b"0 ".as_slice())
}

#[test]
fn a_task_ends_with_its_run(rt: HostRuntime) -> Result<(), Fail> {
    let a = rt.alloc();
    let mut host = LocalHost::new(&rt, a);
    assert!(rt; begins_alone(&rt, &mut host)?);
    assert!(rt; ends_with_its_run(a, &mut host)?);
    Ok(())
}

const NAME: &[u8] = b"read -r a b c p d </proc/$PPID/stat; echo $p >shell";

/// Kills the shell that is named, and waits until it has ended.
const KILL_NAMED: &[u8] =
    b"read -r p <shell; kill -9 $p; while read -r a b t d </proc/$p/stat && test $t != Z; do :; done; rm shell";

/// Whether all is a fault where the shell is killed while no task runs.
fn the_shell_is_killed<H: Host>(alloc: Global, host: &mut H) -> Result<bool, NoMemory> {
    let named = ends_so(alloc, host, 9023, NAME, b"9023 0")?;
    let killed = told(alloc, host, AskKind::Sys, KILL_NAMED, b"")?;
    Ok(named && killed.as_slice() == b"0 ".as_slice() && all_is_a_fault(alloc, host)?)
}

#[test]
fn a_shell_that_is_killed_from_outside_is_a_fault(rt: HostRuntime) -> Result<(), Fail> {
    let a = rt.alloc();
    let mut host = LocalHost::new(&rt, a);
    assert!(rt; the_shell_is_killed(a, &mut host)?);
    Ok(())
}

/// Waits for an end, which is no longer running then. An end that is told twice is a fault.
fn one_end<H: Host>(alloc: Global, host: &mut H, running: &mut Vec<u32>) -> Result<bool, NoMemory> {
    let end = next(alloc, host, &[], running.as_slice())?;
    for place in 0..running.len() {
        let Some(task) = running.get(place) else {
            continue;
        };
        let want = format!(in alloc; "{task} 0")?;
        if want.as_bytes() == end.as_slice() {
            running.swap_remove(place);
            return Ok(true);
        }
    }
    Ok(false)
}

/// How many of so many tasks end well, where this many at most run beside each other.
fn many<H: Host>(alloc: Global, host: &mut H, count: u32, beside: usize) -> Result<u32, NoMemory> {
    let mut running = Vec::new(alloc);
    let mut ends = 0u32;
    for task in 0..count {
        if start(alloc, host, task, b"true")?.as_slice() == DONE {
            running.push(task)?;
        }
        if running.len() >= beside && one_end(alloc, host, &mut running)? {
            ends = ends.saturating_add(1);
        }
    }
    for _ in 0..beside {
        if !running.is_empty() && one_end(alloc, host, &mut running)? {
            ends = ends.saturating_add(1);
        }
    }
    Ok(ends)
}

/// Counts the children of the shell that have ended and aren't waited for, where the word is `=`, or the others, where it is `!=`.
const COUNT: &[u8] =
    b"n=0; for s in /proc/[0-9]*/stat; do if read -r a b t p d <$s && test $t $1 Z && read -r e f g h i </proc/$p/stat && read -r e f g h i </proc/$h/stat && test $h = $PPID; then n=$((n+1)); fi; done 2>/dev/null";

/// Waits until all children of the shell have ended.
const ALL_ENDED: &[u8] =
    b"set -- !=; k=0; until . ./count; test $n = 0; do k=$((k+1)); test $k -lt 200; sleep 0.1; done";

/// Waits until none of them is left that has ended, and then lets the last task end.
const NONE_LEFT: &[u8] =
    b"set -- =; k=0; until . ./count; test $n = 0; do k=$((k+1)); test $k -lt 50; sleep 0.1; done; echo x >go";

const LAST: &[u8] = b"k=0; until test -e go; do k=$((k+1)); test $k -lt 300; sleep 0.1; done";

/// Whether no task that has ended is left as a zombie as soon as one more runs. It removes what tasks printed.
fn none_is_left<H: Host>(alloc: Global, host: &mut H) -> Result<bool, NoMemory> {
    told(alloc, host, AskKind::Write, b"count", COUNT)?;
    let ended = told(alloc, host, AskKind::Sys, ALL_ENDED, b"")?;
    start(alloc, host, 9031, LAST)?;
    let none = told(alloc, host, AskKind::Sys, NONE_LEFT, b"")?;
    let last = next(alloc, host, &[], &[9031])?;
    told(alloc, host, AskKind::Sys, b"rm -r count go .bds", b"")?;
    let well = ended.as_slice() == b"0 ".as_slice() && none.as_slice() == b"0 ".as_slice();
    Ok(well && last.as_slice() == b"9031 0".as_slice())
}

/// The descriptors of this process. What comes before is more than a pipe holds, so this process reads by then, and has closed what it opened only to start the command.
const DESCRIPTORS: &[u8] = b"head -c 100000 /dev/zero; ls /proc/$PPID/fd | wc -l";

/// Whether more than a thousand tasks, one after another, and then two hundred at once all end well.
fn all_end<H: Host>(alloc: Global, host: &mut H) -> Result<bool, NoMemory> {
    let few = many(alloc, host, 1100, 1)?;
    let all = many(alloc, host, 200, 200)?;
    Ok(few == 1100 && all == 200 && many(alloc, host, 2, 1)? == 2)
}

/// Each end is told once, and nothing is left behind.
#[test]
fn many_tasks_leave_nothing(rt: HostRuntime) -> Result<(), Fail> {
    let a = rt.alloc();
    let mut host = LocalHost::new(&rt, a);
    assert_eq!(rt; many(a, &mut host, 1, 1)?, 1);
    let before = told(a, &mut host, AskKind::Sys, DESCRIPTORS, b"")?;
    assert!(rt; all_end(a, &mut host)?);
    let after = told(a, &mut host, AskKind::Sys, DESCRIPTORS, b"")?;
    assert!(rt; after.as_slice() == before.as_slice());
    assert!(rt; none_is_left(a, &mut host)?);
    Ok(())
}
