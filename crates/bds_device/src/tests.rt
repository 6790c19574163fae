//! A run over files, and a host of its own that goes on from what it saved.
use bds_app::run;
use bds_exec::LocalHost;
use bds_host::{Ask, Host, Reply, Trace};
use bds_value::NoMemory;
use std::alloc::Global;
use std::fs;
use std::process::ExitCode;
use std::test::Fail;

const SCRIPT: &[u8] = b"int f() { checkpoint 'a.chp'; return 2 }\nprintln 1 + f()\n";

/// The words of a process: its name, a command and its file.
fn words(alloc: Global, command: &str, file: &str) -> Result<Vec<String>, NoMemory> {
    let mut words = Vec::new(alloc);
    words.push(String::from_str(alloc, "bds")?)?;
    words.push(String::from_str(alloc, command)?)?;
    words.push(String::from_str(alloc, file)?)?;
    Ok(words)
}

/// What a run saved behind its first read, where it then printed this and asked no more.
fn saved<'a>(trace: &'a Trace, printed: &[u8]) -> Option<&'a [u8]> {
    match trace.as_slice() {
        [
            _,
            (Ask::Save { image, .. }, Reply::Done),
            (Ask::Out(text), Reply::Done),
        ] if text.as_slice() == printed => { Some(image.as_slice()) }
        _ => None,
    }
}

/// What a run read, where it then printed this and asked no more.
fn read<'a>(trace: &'a Trace, printed: &[u8]) -> Option<&'a [u8]> {
    match trace.as_slice() {
        [
            (Ask::Read(_), Reply::Bytes(bytes)),
            (Ask::Out(text), Reply::Done),
        ] if text.as_slice() == printed => { Some(bytes.as_slice()) }
        _ => None,
    }
}

#[test]
fn a_state_is_read_as_it_was_saved(rt: HostRuntime) -> Result<(), Fail> {
    let a = rt.alloc();
    fs::write(&rt, "s.bds", SCRIPT)?;
    let first_words = words(a, "run", "s.bds")?;
    let (code, first) = run(a, first_words.as_slice(), LocalHost::new(&rt, a));
    assert_eq!(rt; code, ExitCode::from(0));
    let more_words = words(a, "resume", "a.chp")?;
    let (code, more) = run(a, more_words.as_slice(), LocalHost::new(&rt, a));
    assert_eq!(rt; code, ExitCode::from(0));
    let image = saved(first.trace(), b"3\n");
    assert!(rt; image.is_some());
    assert!(rt; image == read(more.trace(), b"3\n"));
    Ok(())
}
