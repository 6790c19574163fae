//! The command as it is declared to `clap`.
ghost use Rattle.std.specs.Prelude.{◌≡◌, IfOk, false};
ghost use Rattle.clap.specs.Words.{app_of, rule_of, shape_of};
ghost use Rattle.clap.specs.declared.builder.command.Command.TheViews.{out-Command as fields_of};
ghost use Rattle.bds_app_words.specs.Declaration as declared;

use clap::{Arg, Command, value_parser};
use std::alloc::{AllocError, Global};

/// The option `--cpus`.
fn cpus<'a>(alloc: Global) -> Arg<'a>
    ensures rule { rule_of result ≡ declared.cpus }
    ensures local { result.global ≡ false }
{
    Arg::new(alloc, "cpus")
        .long("cpus")
        .value_parser(value_parser!(u32).range(1..=1_024))
        .default_value("4")
}

/// The option `--ticks`.
fn ticks<'a>(alloc: Global) -> Arg<'a>
    ensures rule { rule_of result ≡ declared.ticks }
    ensures local { result.global ≡ false }
{
    Arg::new(alloc, "ticks")
        .long("ticks")
        .value_parser(value_parser!(u64).range(0..=4_611_686_018_427_387_904))
        .default_value("4611686018427387904")
}

/// An option that takes a text.
fn option<'a>(alloc: Global, name: &'a str) -> Arg<'a>
    ensures rule { rule_of result ≡ declared.option name.entry.now }
    ensures local { result.global ≡ false }
{
    Arg::new(alloc, name).long(name)
}

/// A positional that is wanted.
fn wanted<'a>(alloc: Global, name: &'a str) -> Arg<'a>
    ensures rule { rule_of result ≡ declared.wanted name.entry.now }
    ensures local { result.global ≡ false }
{
    Arg::new(alloc, name).required(true)
}

/// The positional of any number of words.
fn words<'a>(alloc: Global) -> Arg<'a>
    ensures rule { rule_of result ≡ declared.words }
    ensures local { result.global ≡ false }
{
    Arg::new(alloc, "words").num_args(0..)
}

/// The positional number.
fn number<'a>(alloc: Global) -> Arg<'a>
    ensures rule { rule_of result ≡ declared.number }
    ensures local { result.global ≡ false }
{
    Arg::new(alloc, "number")
        .required(true)
        .value_parser(value_parser!(u32).range(1..=10_000))
}

/// A command that answers neither for help nor for its version.
fn plain<'a>(alloc: Global, name: &'a str) -> Command<'a>
    ensures app { app_of result ≡ declared.plain_app name.entry.now }
    ensures local { (fields_of result).has_globals ≡ false }
{
    Command::new(alloc, name)
        .disable_help_flag(true)
        .disable_help_subcommand(true)
        .disable_version_flag(true)
}

/// A command with the options of processors and ticks.
fn limited<'a>(alloc: Global, name: &'a str) -> Result<Command<'a>, AllocError>
    ensures shape { IfOk result (λ c. shape_of c ≡ declared.limited name.entry.now) }
    ensures local { IfOk result (λ c. (fields_of c).has_globals ≡ false) }
{
    plain(alloc, name).arg(cpus(alloc))?.arg(ticks(alloc))
}

/// The same with the options of the host that a script runs over.
fn hosted<'a>(alloc: Global, name: &'a str) -> Result<Command<'a>, AllocError>
    ensures shape { IfOk result (λ c. shape_of c ≡ declared.hosted name.entry.now) }
    ensures local { IfOk result (λ c. (fields_of c).has_globals ≡ false) }
{
    limited(alloc, name)?
        .arg(option(alloc, "log"))?
        .arg(option(alloc, "submit"))?
        .arg(option(alloc, "poll"))
}

/// `run`.
fn run<'a>(alloc: Global) -> Result<Command<'a>, AllocError>
    ensures shape { IfOk result (λ c. shape_of c ≡ declared.run) }
    ensures local { IfOk result (λ c. (fields_of c).has_globals ≡ false) }
{
    hosted(alloc, "run")?
        .arg(wanted(alloc, "script"))?
        .arg(words(alloc))
}

/// `resume`.
fn resume<'a>(alloc: Global) -> Result<Command<'a>, AllocError>
    ensures shape { IfOk result (λ c. shape_of c ≡ declared.resume) }
    ensures local { IfOk result (λ c. (fields_of c).has_globals ≡ false) }
{
    hosted(alloc, "resume")?.arg(wanted(alloc, "file"))
}

/// `dry`.
fn dry<'a>(alloc: Global) -> Result<Command<'a>, AllocError>
    ensures shape { IfOk result (λ c. shape_of c ≡ declared.dry) }
    ensures local { IfOk result (λ c. (fields_of c).has_globals ≡ false) }
{
    limited(alloc, "dry")?
        .arg(wanted(alloc, "script"))?
        .arg(words(alloc))
}

/// `test`.
fn test<'a>(alloc: Global) -> Result<Command<'a>, AllocError>
    ensures shape { IfOk result (λ c. shape_of c ≡ declared.test) }
    ensures local { IfOk result (λ c. (fields_of c).has_globals ≡ false) }
{
    limited(alloc, "test")?.arg(wanted(alloc, "script"))
}

/// A subcommand with one positional.
fn with_one<'a>(alloc: Global, name: &'a str, only: Arg<'a>) -> Result<Command<'a>, AllocError>
    requires { only.global ≡ false }
    ensures shape { IfOk result (λ c. shape_of c ≡ declared.with_one name.entry.now (rule_of only.entry)) }
    ensures local { IfOk result (λ c. (fields_of c).has_globals ≡ false) }
{
    plain(alloc, name).arg(only)
}

/// The command with `run` and `resume`.
fn with_runs<'a>(alloc: Global) -> Result<Command<'a>, AllocError>
    ensures { IfOk result (λ c. app_of c ≡ declared.with_runs) }
{
    plain(alloc, "bds")
        .no_binary_name(true)
        .subcommand_required(true)
        .subcommand(run(alloc)?)?
        .subcommand(resume(alloc)?)
}

/// And with `check` and `info`.
fn with_files<'a>(alloc: Global) -> Result<Command<'a>, AllocError>
    ensures { IfOk result (λ c. app_of c ≡ declared.with_files) }
{
    with_runs(alloc)?
        .subcommand(with_one(alloc, "check", wanted(alloc, "script"))?)?
        .subcommand(with_one(alloc, "info", wanted(alloc, "file"))?)
}

/// And with `make` and `fmt`.
fn with_texts<'a>(alloc: Global) -> Result<Command<'a>, AllocError>
    ensures { IfOk result (λ c. app_of c ≡ declared.with_texts) }
{
    with_files(alloc)?
        .subcommand(with_one(alloc, "make", number(alloc))?)?
        .subcommand(with_one(alloc, "fmt", wanted(alloc, "script"))?)
}

/// And with `replay` and `dry`.
fn with_hosts<'a>(alloc: Global) -> Result<Command<'a>, AllocError>
    ensures { IfOk result (λ c. app_of c ≡ declared.with_hosts) }
{
    with_texts(alloc)?
        .subcommand(with_one(alloc, "replay", wanted(alloc, "log"))?)?
        .subcommand(dry(alloc)?)
}

/// The command with all of its subcommands.
pub fn declaration<'a>(alloc: Global) -> Result<Command<'a>, AllocError>
    ensures { IfOk result (λ c. app_of c ≡ declared.declaration) }
{
    with_hosts(alloc)?.subcommand(test(alloc)?)
}
