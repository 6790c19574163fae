//! What the matches of `clap` ask for.
ghost use Rattle.std.specs.Prelude.{◌≡◌, IfOk, Some, map, option_and_then};
ghost use Rattle.clap.specs.Words.{first_of, found_of, rows_of, subcommand_rows_of};
ghost use Rattle.bds_app_words.specs.Asked.{Gives, asked_of, number_at, over_at, texts_at};
ghost use Rattle.bds_app_words.specs.Asked.{dry_of, resume_of, run_of, test_of};

use crate::command::{Command, Over, WordsFault};
use bds_value::{ByteText, Listed, NoMemory, Texts};
use clap::ArgMatches;
use std::alloc::Global;

/// The bytes of a text.
fn bytes_of(alloc: Global, text: &str) -> Result<ByteText, WordsFault>
    ensures { Gives (Some text.now) result }
{
    match Vec::from_slice(alloc, text.as_bytes()) {
        Ok(bytes) => Ok(Listed::from_vec(bytes)),
        Err(_) => Err(WordsFault::NoMemory),
    }
}

/// The first value of an argument.
fn first(alloc: Global, matches: &ArgMatches<'_>, id: &str) -> Result<ByteText, WordsFault>
    ensures { Gives (first_of id.now (rows_of (found_of matches.now))) result }
{
    match matches.get_str(id) {
        Some(text) => bytes_of(alloc, text),
        None => Err(WordsFault::NotUnderstood),
    }
}

/// The first value of an option, where it is given.
fn given(alloc: Global, matches: &ArgMatches<'_>, id: &str) -> Result<Option<ByteText>, WordsFault>
    ensures { Gives (Some (first_of id.now (rows_of (found_of matches.now)))) result }
{
    match matches.get_str(id) {
        Some(text) => Ok(Some(bytes_of(alloc, text)?)),
        None => Ok(None),
    }
}

/// A number of 32 bits.
fn small_number(matches: &ArgMatches<'_>, id: &str) -> Result<u32, WordsFault>
    ensures { Gives (number_at 32 id.now (rows_of (found_of matches.now))) result }
{
    match matches.get_one::<u32>(id) {
        Some(number) => Ok(number),
        None => Err(WordsFault::NotUnderstood),
    }
}

/// A number of 64 bits.
fn number(matches: &ArgMatches<'_>, id: &str) -> Result<u64, WordsFault>
    ensures { Gives (number_at 64 id.now (rows_of (found_of matches.now))) result }
{
    match matches.get_one::<u64>(id) {
        Some(number) => Ok(number),
        None => Err(WordsFault::NotUnderstood),
    }
}

/// Equal texts.
fn copies(alloc: Global, texts: &[&str]) -> Result<Texts, NoMemory>
    ensures { IfOk result (λ copied. copied ≡ map (λ text. text.now) texts.now) }
{
    let mut copies = Listed::new(alloc);
    for text in texts {
        copies.push(Listed::from_vec(Vec::from_slice(alloc, text.as_bytes())?))?;
    }
    Ok(copies)
}

/// All values of an argument.
fn all(alloc: Global, matches: &ArgMatches<'_>, id: &str) -> Result<Texts, WordsFault>
    ensures { Gives (Some (texts_at id.now (rows_of (found_of matches.now)))) result }
{
    match matches.get_strs(id) {
        Some(texts) => match copies(alloc, texts) {
            Ok(texts) => Ok(texts),
            Err(NoMemory) => Err(WordsFault::NoMemory),
        },
        None => Ok(Listed::new(alloc)),
    }
}

/// The host that the options ask for.
fn over(alloc: Global, matches: &ArgMatches<'_>) -> Result<Over, WordsFault>
    ensures { Gives (over_at (rows_of (found_of matches.now))) result }
{
    let log = given(alloc, matches, "log")?;
    let submit = given(alloc, matches, "submit")?;
    let poll = given(alloc, matches, "poll")?;
    match (log, submit, poll) {
        (None, None, None) => Ok(Over::Plain),
        (Some(path), None, None) => Ok(Over::Log(path)),
        (None, Some(submit), Some(poll)) => Ok(Over::Farm { submit, poll }),
        _ => Err(WordsFault::NotUnderstood),
    }
}

/// What the matches of `run` ask for.
fn run(alloc: Global, matches: &ArgMatches<'_>) -> Result<Command, WordsFault>
    ensures { Gives (run_of (rows_of (found_of matches.now))) result }
{
    let cpus = small_number(matches, "cpus")?;
    let ticks = number(matches, "ticks")?;
    let script = first(alloc, matches, "script")?;
    let words = all(alloc, matches, "words")?;
    let over = over(alloc, matches)?;
    Ok(Command::Run {
        cpus,
        ticks,
        script,
        words,
        over,
    })
}

/// What the matches of `resume` ask for.
fn resume(alloc: Global, matches: &ArgMatches<'_>) -> Result<Command, WordsFault>
    ensures { Gives (resume_of (rows_of (found_of matches.now))) result }
{
    let cpus = small_number(matches, "cpus")?;
    let ticks = number(matches, "ticks")?;
    let file = first(alloc, matches, "file")?;
    let over = over(alloc, matches)?;
    Ok(Command::Resume {
        cpus,
        ticks,
        file,
        over,
    })
}

/// What the matches of `dry` ask for.
fn dry(alloc: Global, matches: &ArgMatches<'_>) -> Result<Command, WordsFault>
    ensures { Gives (dry_of (rows_of (found_of matches.now))) result }
{
    let cpus = small_number(matches, "cpus")?;
    let ticks = number(matches, "ticks")?;
    let script = first(alloc, matches, "script")?;
    let words = all(alloc, matches, "words")?;
    Ok(Command::Dry {
        cpus,
        ticks,
        script,
        words,
    })
}

/// What the matches of `test` ask for.
fn test(alloc: Global, matches: &ArgMatches<'_>) -> Result<Command, WordsFault>
    ensures { Gives (test_of (rows_of (found_of matches.now))) result }
{
    let cpus = small_number(matches, "cpus")?;
    let ticks = number(matches, "ticks")?;
    let script = first(alloc, matches, "script")?;
    Ok(Command::Test {
        cpus,
        ticks,
        script,
    })
}

/// What the matches of a subcommand ask for.
fn asked_of(alloc: Global, name: &str, matches: &ArgMatches<'_>) -> Result<Command, WordsFault>
    ensures { Gives (asked_of name.now (rows_of (found_of matches.now))) result }
{
    match name {
        "run" => run(alloc, matches),
        "resume" => resume(alloc, matches),
        "check" => Ok(Command::Check(first(alloc, matches, "script")?)),
        "info" => Ok(Command::Info(first(alloc, matches, "file")?)),
        "make" => Ok(Command::Make(small_number(matches, "number")?)),
        "fmt" => Ok(Command::Format(first(alloc, matches, "script")?)),
        "replay" => Ok(Command::Replay(first(alloc, matches, "log")?)),
        "dry" => dry(alloc, matches),
        "test" => test(alloc, matches),
        _ => Err(WordsFault::NotUnderstood),
    }
}

/// What the matches of a call ask for.
pub fn asked(alloc: Global, matches: &ArgMatches<'_>) -> Result<Command, WordsFault>
    ensures { Gives (option_and_then (λ p. asked_of p.0 p.1) (subcommand_rows_of matches.now)) result }
{
    match matches.subcommand() {
        Some((name, matches)) => asked_of(alloc, name, matches),
        None => Err(WordsFault::NotUnderstood),
    }
}
