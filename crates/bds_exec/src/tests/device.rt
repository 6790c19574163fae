//! Files, streams and commands of the real device.
use super::asking::{AskKind, FAULT, told};
use crate::LocalHost;
use bds_host::Host;
use bds_value::NoMemory;
use std::alloc::Global;
use std::test::Fail;

type Row = (AskKind, &'static [u8], &'static [u8], &'static [u8]);

/// An ask, its path or text, the bytes that are written, and what the reply tells. `\xff` is no text, and nothing goes into `/dev/full`.
/// A save goes through links to the file, whose mode it keeps, and straight into what is no file.
const FILES: [Row; 43] = [
    (AskKind::Write, b"f", b"ab\n\xff", b"done"),
    (AskKind::Read, b"f", b"", b"ab\n\xff"),
    (AskKind::Stamp, b"f", b"", b"4 "),
    (AskKind::Save, b"f", b"c", b"done"),
    (AskKind::Read, b"f", b"", b"c"),
    (AskKind::Read, b"f.new", b"", b"missing"),
    (
        AskKind::Sys,
        b"chmod 602 f; mkdir s; ln -s ../f s/l; ln -s s/l k; ln -s ../g s/n; echo x >x; ln -s x f.new",
        b"",
        b"0 ",
    ),
    (AskKind::Save, b"k", b"de", b"done"),
    (AskKind::Save, b"s/n", b"h", b"done"),
    (
        AskKind::Sys,
        b"stat -c %A f; cat f g x; readlink k s/l s/n; ls f*",
        b"",
        b"0 -rw-----w-\ndehx\ns/l\n../f\n../g\nf\n",
    ),
    (AskKind::Save, b"/dev/full", b"ghi", b"fault"),
    (AskKind::Save, b"/dev/null", b"ghi", b"done"),
    (AskKind::Stamp, b"/dev/null", b"", b"0 "),
    (
        AskKind::Sys,
        b"test -c /dev/null; mkfifo p; { cat p >q; mv q r; } >/dev/null 2>&1 &",
        b"",
        b"0 ",
    ),
    (AskKind::Save, b"p", b"through a pipe", b"done"),
    (
        AskKind::Sys,
        b"n=0; until test -e r; do n=$((n+1)); test $n -lt 99; sleep 0.1; done; cat r; test -p p; ln -s o o; for i in $(seq 41); do ln -s c$((i-1)) c$i; done",
        b"",
        b"0 through a pipe",
    ),
    (AskKind::Save, b"o", b"in a ring", b"fault"),
    (AskKind::Save, b"c40", b"behind 40 links\n", b"done"),
    (AskKind::Save, b"c41", b"behind 41 links\n", b"fault"),
    (AskKind::Save, b"s", b"jkl", b"fault"),
    (
        AskKind::Sys,
        b"cat c0; rm k s/l s/n g x p r o c*; rmdir s; ls f*",
        b"",
        b"0 behind 40 links\nf\n",
    ),
    (AskKind::Save, b"no/f", b"a", b"fault"),
    (AskKind::Read, b"f/g", b"", b"fault"),
    (AskKind::Remove, b"f", b"", b"done"),
    (AskKind::Read, b"f", b"", b"missing"),
    (AskKind::Stamp, b"f", b"", b"missing"),
    (AskKind::Remove, b"f", b"", b"missing"),
    (AskKind::Write, b"e", b"", b"done"),
    (AskKind::Read, b"e", b"", b""),
    (AskKind::Stamp, b"e", b"", b"0 "),
    (AskKind::Remove, b"e", b"", b"done"),
    (AskKind::Read, b".", b"", b"fault"),
    (AskKind::Write, b".", b"a", b"fault"),
    (AskKind::Remove, b".", b"", b"fault"),
    (AskKind::Write, b"no/f", b"a", b"fault"),
    (AskKind::Read, b"a\0b", b"", b"fault"),
    (AskKind::Read, b"\xff", b"", b"fault"),
    (AskKind::Stamp, b"\xff", b"", b"fault"),
    (AskKind::Write, b"\xff", b"a", b"fault"),
    (AskKind::Save, b"\xff", b"a", b"fault"),
    (AskKind::Remove, b"\xff", b"", b"fault"),
    (AskKind::Out, b"on standard output\n", b"", b"done"),
    (AskKind::Err, b"on standard error\n", b"", b"done"),
];

const COMMANDS: [Row; 16] = [
    (AskKind::Sys, b"-u; echo hi", b"", b"127 "),
    (AskKind::Sys, b"+u 2>&- || echo hi", b"", b"0 hi\n"),
    (AskKind::Sys, b"echo hi; exit 3", b"", b"3 hi\n"),
    (AskKind::Sys, b"printf 'no line end'", b"", b"0 no line end"),
    (AskKind::Sys, b"false; echo not reached", b"", b"1 "),
    (AskKind::Sys, b"kill -9 $$", b"", b"255 "),
    (AskKind::Sys, b"cat", b"", b"0 "),
    (AskKind::Sys, b"echo \xff", b"", b"fault"),
    (AskKind::Sys, b"echo a\0b", b"", b"fault"),
    (
        AskKind::Sys,
        b"head -c 1048576 /dev/zero >m; wc -c <m",
        b"",
        b"0 1048576\n",
    ),
    (AskKind::Sys, b"touch -d @1.000000005 t", b"", b"0 "),
    (AskKind::Stamp, b"t", b"", b"0 1000000005"),
    (AskKind::Sys, b"touch -d @-1.5 t", b"", b"0 "),
    (AskKind::Stamp, b"t", b"", b"0 -1500000000"),
    (AskKind::Stamp, b"m", b"", b"1048576 "),
    (
        AskKind::Sys,
        b"mkdir d; touch -d @2 d; chmod 000 m",
        b"",
        b"0 ",
    ),
];

#[test]
fn files_are_written_and_read(rt: HostRuntime) -> Result<(), Fail> {
    let a = rt.alloc();
    let mut host = LocalHost::new(&rt, a);
    for (kind, name, more, want) in FILES {
        let found = told(a, &mut host, kind, name, more)?;
        assert!(rt; found.as_slice() == want, "{name:?}");
    }
    Ok(())
}

/// Whether long output comes whole, a folder has its time, and a file that may not be read is a fault, but for the root user. It removes what the
/// commands made.
fn more_commands_run<H: Host>(alloc: Global, host: &mut H) -> Result<bool, NoMemory> {
    let long = told(alloc, host, AskKind::Sys, b"head -c 1048576 /dev/zero", b"")?;
    let folder = told(alloc, host, AskKind::Stamp, b"d", b"")?;
    let user = told(alloc, host, AskKind::Sys, b"id -u", b"")?;
    let closed = told(alloc, host, AskKind::Read, b"m", b"")?;
    let kept = told(alloc, host, AskKind::Save, b"m", b"a")?;
    told(alloc, host, AskKind::Sys, b"rm -rf d m t", b"")?;
    let is_closed = closed.as_slice() == FAULT && kept.as_slice() == FAULT;
    let refused = user.as_slice() == b"0 0\n".as_slice() || is_closed;
    Ok(refused && long.len() == 1_048_578 && folder.as_slice().ends_with(b" 2000000000"))
}

#[test]
fn commands_run(rt: HostRuntime) -> Result<(), Fail> {
    let a = rt.alloc();
    let mut host = LocalHost::new(&rt, a);
    for (kind, name, more, want) in COMMANDS {
        let found = told(a, &mut host, kind, name, more)?;
        assert!(rt; found.as_slice() == want, "{name:?}");
    }
    assert!(rt; more_commands_run(a, &mut host)?);
    Ok(())
}
