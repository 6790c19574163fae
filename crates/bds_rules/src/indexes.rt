//! Numbers of files, found without a search.
ghost use Rattle.std.specs.Prelude.{◌≡◌, ℕ, List, None, IfOk, OnErr, length, take};
ghost use Rattle.std.specs.Option.{option_or};
ghost use Rattle.bds_rules.specs.Indexes.{are_new, number_if, number_in, number_of_one};

use bds_value::{ByteText, NoMemory};
use indexmap::IndexMap;
use std::alloc::Global;

/// A number for each of some files.
pub type FileNumbers = IndexMap<Vec<u8>, usize>;

/// Gives a file, which has none, a number, at the end of the index.
fn put(alloc: Global, index: &mut FileNumbers, file: &[u8], n: usize) -> Result<(), NoMemory>
    requires { number_in index.old.entries file.now ≡ None }
    ensures ok { IfOk result (λ _. (x : List ℕ) → number_in index.new.entries x ≡ option_or (number_in index.old.entries x) (number_of_one x file.now n)) }
    ensures kept { take (length index.old.entries) index.new.entries ≡ index.old.entries }
{
    let file = Vec::from_slice(alloc, file)?;
    index.insert(file, n)?;
    Ok(())
}

/// Gives a file a number, where it has none, at the end of the index.
fn put_one(alloc: Global, index: &mut FileNumbers, file: &[u8], n: usize) -> Result<(), NoMemory>
    ensures ok { IfOk result (λ _. (x : List ℕ) → number_in index.new.entries x ≡ option_or (number_in index.old.entries x) (number_of_one x file.now n)) }
    ensures kept { take (length index.old.entries) index.new.entries ≡ index.old.entries }
{
    if index.contains_key(file) {
        return Ok(());
    }
    put(alloc, index, file, n)
}

/// Gives a file a number, where it has none.
pub fn put_first(
    alloc: Global,
    index: &mut FileNumbers,
    file: &[u8],
    n: usize,
) -> Result<(), NoMemory>
    ensures { IfOk result (λ _. (x : List ℕ) → number_in index.new.entries x ≡ option_or (number_in index.old.entries x) (number_of_one x file.now n)) }
{
    put_one(alloc, index, file, n)
}

/// Gives each of these files that has none a number, at the end of the index.
fn put_each(
    alloc: Global,
    index: &mut FileNumbers,
    files: &[ByteText],
    n: usize,
) -> Result<(), NoMemory>
    ensures ok { IfOk result (λ _. (x : List ℕ) → number_in index.new.entries x ≡ option_or (number_in index.old.entries x) (number_if files.now n x)) }
    ensures kept { take (length index.old.entries) index.new.entries ≡ index.old.entries }
{
    for file in files {
        put_one(alloc, index, file.as_slice(), n)?;
    }
    Ok(())
}

/// Gives each of these files that has none a number. A refused call leaves the index as it was.
pub(crate) fn put_files(
    alloc: Global,
    index: &mut FileNumbers,
    files: &[ByteText],
    n: usize,
) -> Result<(), NoMemory>
    ensures ok { IfOk result (λ _. (x : List ℕ) → number_in index.new.entries x ≡ option_or (number_in index.old.entries x) (number_if files.now n x)) }
    ensures err { OnErr result (index.new.entries ≡ index.old.entries) }
{
    let before = index.len();
    match put_each(alloc, index, files, n) {
        Ok(()) => Ok(()),
        Err(_) => {
            index.truncate(before);
            Err(NoMemory)
        }
    }
}

/// None of these files has a number.
pub(crate) fn are_new(index: &FileNumbers, files: &[ByteText]) -> bool
    ensures { result ≡ are_new index.now.entries files.now }
{
    for file in files {
        if index.contains_key(file.as_slice()) {
            return false;
        }
    }
    true
}
