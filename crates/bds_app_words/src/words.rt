//! Reading the words of a call.
ghost use Rattle.std.specs.Prelude.{◌≡◌, ◌≢◌, IfOk, length, map, nat_le, string_bytes};
ghost use Rattle.std.specs.List.{list_all};
ghost use Rattle.bds_value.specs.declared.TheConstants.{MAX_TEXT};
ghost use Rattle.clap.specs.Words.{kind_of};
ghost use Rattle.clap.specs.declared.error.kind.ErrorKind.TheVariants.{OutOfMemory};
ghost use Rattle.bds_app_words.specs.Asked.{Gives, are_short, command_of};
ghost use Rattle.bds_app_words.specs.Ranges.{IsWithin};
ghost use Rattle.bds_app_words.specs.declared.command.WordsFault.TheVariants.{NoMemory, NotUnderstood};

use crate::command::{Command, WordsFault};
use crate::declaration::declaration;
use crate::matched::asked;
use bds_value::{MAX_ITEMS, MAX_TEXT};
use clap::error::{Error, ErrorKind};
use std::alloc::Global;

/// Whether a word is no longer than a text may be.
fn is_short(word: &String) -> bool
    ensures { result ≡ nat_le (length (string_bytes word.now)) MAX_TEXT }
{
    word.len() as u64 <= MAX_TEXT
}

/// Whether no word is too long.
fn are_each_short(words: &[String]) -> bool
    ensures { result ≡ list_all (λ word. nat_le (length (string_bytes word)) MAX_TEXT) words.now }
{
    words.iter().all(is_short)
}

/// Whether the words are neither too many nor too long.
fn are_short(words: &[String]) -> bool
    ensures { result ≡ are_short (map string_bytes words.now) }
{
    words.len() as u64 <= MAX_ITEMS && are_each_short(words)
}

/// What a parse that failed comes to.
fn failure(error: &Error) -> WordsFault
    ensures memory { result ≡ NoMemory → kind_of error.now ≡ OutOfMemory }
    ensures other { result ≡ NotUnderstood → kind_of error.now ≢ OutOfMemory }
{
    if error.kind() == ErrorKind::OutOfMemory {
        WordsFault::NoMemory
    } else {
        WordsFault::NotUnderstood
    }
}

/// Reads the words of a call.
fn read(alloc: Global, words: &[String]) -> Result<Command, WordsFault>
    ensures { Gives (command_of (map string_bytes words.now)) result }
{
    if !are_short(words) {
        return Err(WordsFault::NotUnderstood);
    }
    let Ok(command) = declaration(alloc) else {
        return Err(WordsFault::NoMemory);
    };
    match command.try_get_matches_from(words) {
        Ok(matches) => asked(alloc, &matches),
        Err(error) => Err(failure(&error)),
    }
}

/// Reads the words of a call, without the program's own name.
#[tactic(auto, using(crate::proofs::Declared::given_within))]
pub fn read_words(alloc: Global, words: &[String]) -> Result<Command, WordsFault>
    ensures meaning { Gives (command_of (map string_bytes words.now)) result }
    ensures ranges { IfOk result IsWithin }
{
    read(alloc, words)
}
