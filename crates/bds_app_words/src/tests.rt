//! Word lists, and what they ask for.
use crate::command::{Command, Over, WordsFault};
use crate::words::read_words;
use bds_value::{ByteText, MAX_TICKS};
use std::alloc::{AllocError, Global};
use std::test::Fail;

/// The subcommand, the processors and ticks, the path and the words for the script.
type Wanted = (
    &'static str,
    u32,
    u64,
    &'static str,
    &'static [&'static str],
);

const ASKED: [(&[&str], Wanted); 20] = [
    (&["run", "s.bds"], ("run", 4, MAX_TICKS, "s.bds", &[])),
    (
        &["run", "--ticks", "1000", "s.bds"],
        ("run", 4, 1_000, "s.bds", &[]),
    ),
    (
        &["run", "s.bds", "--", "-n", "5", "x"],
        ("run", 4, MAX_TICKS, "s.bds", &["-n", "5", "x"]),
    ),
    (
        &["run", "s.bds", "x", "y"],
        ("run", 4, MAX_TICKS, "s.bds", &["x", "y"]),
    ),
    (
        &["run", "s.bds", "x", "--cpus=8", "y", "--", "-z"],
        ("run", 8, MAX_TICKS, "s.bds", &["x", "y", "-z"]),
    ),
    (
        &["run", "--cpus", "+1024", "--ticks", "0", "--", "-s"],
        ("run", 1_024, 0, "-s", &[]),
    ),
    (&["run", "", ""], ("run", 4, MAX_TICKS, "", &[""])),
    (
        &["resume", "--cpus", "2", "f"],
        ("resume", 2, MAX_TICKS, "f", &[]),
    ),
    (&["check", "s"], ("check", 0, 0, "s", &[])),
    (&["check", "--", "help"], ("check", 0, 0, "help", &[])),
    (&["info", "f"], ("info", 0, 0, "f", &[])),
    (&["make", "1"], ("make", 1, 0, "", &[])),
    (&["make", "10000"], ("make", 10_000, 0, "", &[])),
    (&["make", "--", "007"], ("make", 7, 0, "", &[])),
    (&["fmt", "s.bds"], ("fmt", 0, 0, "s.bds", &[])),
    (&["replay", "l.log"], ("replay", 0, 0, "l.log", &[])),
    (&["dry", "s.bds"], ("dry", 4, MAX_TICKS, "s.bds", &[])),
    (
        &["dry", "--cpus", "2", "s.bds", "x", "--ticks=5", "--", "-y"],
        ("dry", 2, 5, "s.bds", &["x", "-y"]),
    ),
    (&["test", "s.bds"], ("test", 4, MAX_TICKS, "s.bds", &[])),
    (
        &["test", "--ticks", "9", "--cpus", "1", "s.bds"],
        ("test", 1, 9, "s.bds", &[]),
    ),
];

/// Words of `run` and `resume`, and the host that they ask for: no text, a log, or the two commands of a farm.
const OVER: [(&[&str], &[&str]); 11] = [
    (&["run", "s"], &[]),
    (&["run", "s", "--", "--log", "l"], &[]),
    (&["run", "--log", "l.log", "s"], &["l.log"]),
    (&["run", "s", "x", "--log=l.log", "y"], &["l.log"]),
    (&["run", "--log", "", "s"], &[""]),
    (
        &["run", "--submit", "q", "--poll", "s", "s.bds"],
        &["q", "s"],
    ),
    (
        &["run", "--poll=s -a", "s.bds", "--submit", "q"],
        &["q", "s -a"],
    ),
    (&["resume", "f"], &[]),
    (&["resume", "f", "--log", "l.log"], &["l.log"]),
    (
        &["resume", "--submit", "q", "--poll", "s", "f"],
        &["q", "s"],
    ),
    (
        &["resume", "--cpus", "2", "--poll", "", "--submit", "", "f"],
        &["", ""],
    ),
];

const REFUSED: [&[&str]; 55] = [
    &[],
    &[""],
    &["make", "0"],
    &["make", "10001"],
    &["make", "x"],
    &["make", "--", "-1"],
    &["make"],
    &["run"],
    &["run", "--cpus", "0", "s"],
    &["run", "--cpus", "1025", "s"],
    &["run", "--cpus", "", "s"],
    &["run", "--ticks", "4611686018427387905", "s"],
    &["run", "--ticks", "99999999999999999999", "s"],
    &["run", "--cpus", "1", "--cpus", "2", "s"],
    &["walk", "s"],
    &["run", "s", "-n"],
    &["run", "s", "--file", "x"],
    &["--help"],
    &["help"],
    &["run", "--help"],
    &["-V"],
    &["check"],
    &["check", "a", "b"],
    &["check", "--cpus", "2", "a"],
    &["resume", "f", "x"],
    &["info"],
    &["run", "s", "--cpus"],
    &["run", "--submit", "q", "s.bds"],
    &["run", "--poll", "p", "s.bds"],
    &["run", "--log", "l", "--submit", "q", "s.bds"],
    &["run", "--log", "l", "--poll", "p", "s.bds"],
    &["run", "--log", "l", "--submit", "q", "--poll", "p", "s.bds"],
    &["resume", "--submit", "q", "f"],
    &["resume", "--poll", "p", "f"],
    &["resume", "--log", "l", "--submit", "q", "f"],
    &["resume", "--log", "l", "--poll", "p", "f"],
    &["resume", "--log", "l", "--submit", "q", "--poll", "p", "f"],
    &["run", "--log", "a", "--log", "b", "s"],
    &["run", "--submit", "a", "--submit", "b", "--poll", "p", "s"],
    &["run", "s", "--log"],
    &["run", "--log", "l"],
    &["check", "--log", "l", "s"],
    &["fmt"],
    &["fmt", "a", "b"],
    &["fmt", "--log", "l", "s"],
    &["replay"],
    &["replay", "a", "b"],
    &["replay", "--cpus", "2", "a"],
    &["dry"],
    &["dry", "--log", "l", "s"],
    &["dry", "--cpus", "0", "s"],
    &["test"],
    &["test", "a", "b"],
    &["test", "--ticks", "4611686018427387905", "s"],
    &["test", "--log", "l", "s"],
];

fn strings(alloc: Global, words: &[&str]) -> Result<Vec<String>, AllocError> {
    let mut strings = Vec::new(alloc);
    for word in words {
        strings.push(String::from_str(alloc, word)?)?;
    }
    Ok(strings)
}

fn is_text(text: &ByteText, wanted: &str) -> bool {
    text.as_slice() == wanted.as_bytes()
}

fn are_texts(texts: &[ByteText], wanted: &[&str]) -> bool {
    texts.len() == wanted.len()
        && texts
            .iter()
            .zip(wanted)
            .all(|(text, word)| is_text(text, word))
}

fn are_limits(cpus: u32, ticks: u64, wanted: Wanted) -> bool {
    cpus == wanted.1 && ticks == wanted.2
}

fn is_wanted(command: &Command, wanted: Wanted) -> bool {
    match command {
        Command::Run {
            cpus,
            ticks,
            script,
            words,
            over,
        } => {
            wanted.0 == "run"
                && are_limits(*cpus, *ticks, wanted)
                && is_text(script, wanted.3)
                && are_texts(words.as_slice(), wanted.4)
                && is_over(over, &[])
        }
        Command::Resume {
            cpus,
            ticks,
            file,
            over,
        } => {
            wanted.0 == "resume"
                && are_limits(*cpus, *ticks, wanted)
                && is_text(file, wanted.3)
                && is_over(over, &[])
        }
        Command::Check(script) => wanted.0 == "check" && is_text(script, wanted.3),
        Command::Info(file) => wanted.0 == "info" && is_text(file, wanted.3),
        Command::Make(number) => wanted.0 == "make" && *number == wanted.1,
        Command::Format(script) => wanted.0 == "fmt" && is_text(script, wanted.3),
        Command::Replay(log) => wanted.0 == "replay" && is_text(log, wanted.3),
        Command::Dry {
            cpus,
            ticks,
            script,
            words,
        } => {
            wanted.0 == "dry"
                && are_limits(*cpus, *ticks, wanted)
                && is_text(script, wanted.3)
                && are_texts(words.as_slice(), wanted.4)
        }
        Command::Test {
            cpus,
            ticks,
            script,
        } => {
            wanted.0 == "test" && are_limits(*cpus, *ticks, wanted) && is_text(script, wanted.3)
        }
    }
}

fn is_over(over: &Over, wanted: &[&str]) -> bool {
    match (over, wanted) {
        (Over::Plain, []) => true,
        (Over::Log(path), [log]) => is_text(path, log),
        (Over::Farm { submit, poll }, [first, second]) => {
            is_text(submit, first) && is_text(poll, second)
        }
        _ => false,
    }
}

fn is_done_over(command: &Command, wanted: &[&str]) -> bool {
    match command {
        Command::Run { over, .. } => is_over(over, wanted),
        Command::Resume { over, .. } => is_over(over, wanted),
        _ => false,
    }
}

fn asks_over(alloc: Global, words: &[&str], wanted: &[&str]) -> Result<bool, Fail> {
    let words = strings(alloc, words)?;
    Ok(match read_words(alloc, words.as_slice()) {
        Ok(command) => is_done_over(&command, wanted),
        Err(_) => false,
    })
}

fn asks(alloc: Global, words: &[&str], wanted: Wanted) -> Result<bool, Fail> {
    let words = strings(alloc, words)?;
    Ok(match read_words(alloc, words.as_slice()) {
        Ok(command) => is_wanted(&command, wanted),
        Err(_) => false,
    })
}

fn is_refused(alloc: Global, words: &[&str]) -> Result<bool, Fail> {
    let words = strings(alloc, words)?;
    Ok(match read_words(alloc, words.as_slice()) {
        Ok(_) => false,
        Err(fault) => fault == WordsFault::NotUnderstood,
    })
}

#[test]
fn words_are_read(rt: HostRuntime) -> Result<(), Fail> {
    for (words, wanted) in &ASKED {
        assert!(rt; asks(rt.alloc(), words, *wanted)?);
    }
    Ok(())
}

#[test]
fn words_are_refused(rt: HostRuntime) -> Result<(), Fail> {
    for words in &REFUSED {
        assert!(rt; is_refused(rt.alloc(), words)?);
    }
    Ok(())
}

#[test]
fn hosts_are_read(rt: HostRuntime) -> Result<(), Fail> {
    for (words, wanted) in &OVER {
        assert!(rt; asks_over(rt.alloc(), words, wanted)?);
    }
    Ok(())
}
